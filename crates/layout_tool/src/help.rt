use crate::commands::Command;

// The help of all commands.
pub(crate) fn general_help() -> &'static [u8] {
    b"layout compare FIRMWARE TABLE..      whether each table names the offsets of the firmware, and which they do not share\n\
layout list FILE                     the offsets of a file, rising\n\
layout union A B                     the offsets of A, then those of B that are not in A\n\
layout intersection A B              the offsets of A that are in B\n\
layout difference A B                the offsets of A that are not in B\n\
layout symmetric-difference A B      those of A not in B, then those of B not in A\n\
layout renumber PAIRS OLD --length N the new offset of each offset of OLD, by a file of pairs\n\
layout help COMMAND                  more of a command\n\
Options, in any place:\n\
\x20 --count         the number of offsets alone; of a comparison the verdict alone\n\
\x20 --sheet         each line with its place and how many there are, for a printed sheet\n\
\x20 --quiet         nothing on the standard output: the status tells\n\
\x20 --allow-empty   a file may name no offset\n\
\x20 --length N      the new length of a renumbering, 0 to 65536\n\
\x20 --pairs         of a renumbering each old offset with its new one\n\
\x20 --back          of a renumbering the file of pairs for the way back\n\
\x20 --version, --help, and -- before names that start with -\n\
A file has one offset a line, 0 to 65535, decimal or hexadecimal with 0x. Blank lines, spaces, tabs and comments from # on are allowed; - is the standard input.\n\
The status is 0 for the same or complete, 1 for different, 2 for trouble: then nothing that was written may be used.\n"
}

impl Command {
    pub(crate) fn help(self) -> &'static [u8] {
        match self {
            Command::Compare => {
                b"layout compare FIRMWARE TABLE..\n\
Lists the offsets that only FIRMWARE names, then those that only the table names, and says `same` or `DIFFERENT` with the totals of both files.\n\
With several tables each has its verdict, and the last line is over all of them. Status 0: all tables are the same; 1: one is different; 2: trouble with a file.\n"
            }
            Command::List => {
                b"layout list FILE\n\
Lists the offsets of FILE, rising, one a line. The last line is `# complete: N offsets`: a list without it is not whole, and the tool refuses a list that has another number of offsets.\n"
            }
            Command::Union => {
                b"layout union A B\nLists the offsets of A, rising, then those of B that are not in A, rising, and the last line of a list.\n"
            }
            Command::Intersection => {
                b"layout intersection A B\nLists the offsets of A that are in B, rising, and the last line of a list.\n"
            }
            Command::Difference => {
                b"layout difference A B\nLists the offsets of A that are not in B, rising, and the last line of a list.\n"
            }
            Command::SymmetricDifference => {
                b"layout symmetric-difference A B\nLists the offsets of A that are not in B, rising, then those of B that are not in A, rising, and the last line of a list.\n"
            }
            Command::Renumber => {
                b"layout renumber PAIRS OLD --length N\n\
Lists the new offset of each offset of OLD, rising, and the last line of a list. PAIRS has an old offset and its new one on each line; N is the new length, 0 to 65536.\n\
With --pairs: a line `old new` for each offset of OLD, by old offset. With --back: the pairs for the way back, a line `new old` for each pair of PAIRS, by new offset.\n\
Refused, with the lines that are at fault, the first 20 of them and how many more: two pairs with one old offset, two with one new offset, a new offset that is not below N, an offset of OLD with no pair. OLD is read once PAIRS may be used.\n"
            }
        }
    }
}
