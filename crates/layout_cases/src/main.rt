// Runs the layout tool on one kind of file after the other, with a heading for each. Both streams go to the standard output, and the status stands below them.
#![tactic(auto)]

use layout_tool::run;

// A line that cannot be written is left out, and the cases go on: what was written is compared.
fn case(rt: HostRuntime, heading: &str, arguments: &[u8]) {
    let _heading = println!(rt; "== {heading}");
    let status = run(&rt, arguments, &mut rt.stdout(), &mut rt.stdout());
    let _status = println!(rt; "status {status}");
}

fn comparisons(rt: HostRuntime) {
    case(
        rt,
        "the same offsets",
        b"compare\0firmware.txt\0installer.txt\0",
    );
    case(rt, "different offsets", b"compare\0first.txt\0second.txt\0");
    case(
        rt,
        "different offsets on a sheet",
        b"--sheet\0compare\0first.txt\0second.txt\0",
    );
    case(
        rt,
        "the verdict alone",
        b"compare\0first.txt\0--count\0second.txt\0",
    );
    case(
        rt,
        "nothing but the status",
        b"compare\0first.txt\0second.txt\0--quiet\0",
    );
    case(
        rt,
        "offsets named again",
        b"compare\0repeats.txt\0three.txt\0",
    );
    case(
        rt,
        "several tables",
        b"compare\0three.txt\0repeats.txt\0first.txt\0second.txt\0",
    );
    case(
        rt,
        "several tables, one of them missing",
        b"compare\0three.txt\0repeats.txt\0missing.txt\0",
    );
    case(
        rt,
        "two files without offsets",
        b"compare\0empty.txt\0blank.txt\0",
    );
    case(
        rt,
        "two files that may have none",
        b"compare\0--allow-empty\0empty.txt\0blank.txt\0",
    );
}

fn lists(rt: HostRuntime) {
    case(rt, "a list", b"list\0second.txt\0");
    case(rt, "a sheet", b"list\0--sheet\0second.txt\0");
    case(rt, "a count", b"list\0second.txt\0--count\0");
    case(rt, "all offsets", b"list\0all.txt\0--count\0");
    case(
        rt,
        "a line behind 1,000 blank ones",
        b"list\0blank-lines.txt\0",
    );
    case(rt, "union", b"union\0a.txt\0b.txt\0");
    case(rt, "intersection", b"intersection\0a.txt\0b.txt\0");
    case(rt, "difference", b"difference\0a.txt\0b.txt\0");
    case(
        rt,
        "symmetric difference",
        b"symmetric-difference\0a.txt\0b.txt\0",
    );
    case(
        rt,
        "symmetric difference, counted",
        b"symmetric-difference\0a.txt\0b.txt\0--count\0",
    );
}

fn files(rt: HostRuntime) {
    case(
        rt,
        "both line ends, blanks and comments",
        b"list\0crlf.txt\0",
    );
    case(rt, "carriage returns for line ends", b"list\0returns.txt\0");
    case(rt, "a carriage return inside a line", b"list\0inside.txt\0");
    case(rt, "hexadecimal", b"list\0hexadecimal.txt\0");
    case(rt, "a byte order mark at the start", b"list\0marked.txt\0");
    case(
        rt,
        "a byte order mark on a later line",
        b"list\0late-mark.txt\0",
    );
    case(rt, "a number that is too large", b"list\0large.txt\0");
    case(rt, "lines that are no numbers", b"list\0bad.txt\0");
    case(rt, "zeros in front", b"list\0zeros.txt\0");
    case(rt, "more bad lines than are shown", b"list\0many-bad.txt\0");
    case(
        rt,
        "more repeats than are shown",
        b"list\0--count\0many-repeats.txt\0",
    );
    case(
        rt,
        "the longest line, and a longer one",
        b"list\0long-line.txt\0",
    );
    case(rt, "no such file", b"list\0missing.txt\0");
    case(rt, "a folder", b"list\0folder\0");
    case(
        rt,
        "a name with a line feed",
        b"list\0a\nsame: 9 offsets in each\0",
    );
    case(
        rt,
        "a long name",
        b"list\0a-very-long-folder-of-the-apartment-block/cabinet-17.txt\0",
    );
}

fn read_back(rt: HostRuntime) {
    case(rt, "the tool's own list", b"list\0list.txt\0");
    case(
        rt,
        "a list that has lost an offset",
        b"list\0short-list.txt\0",
    );
    case(
        rt,
        "an offset behind the last line",
        b"list\0long-list.txt\0",
    );
    case(
        rt,
        "a last line without its end",
        b"list\0damaged-list.txt\0",
    );
}

fn usage(rt: HostRuntime) {
    case(rt, "no word", b"");
    case(rt, "help of a command", b"help\0list\0");
    case(rt, "help of an unknown command", b"help\0unite\0");
    case(rt, "an unknown command", b"unite\0a.txt\0b.txt\0");
    case(rt, "an unknown option", b"list\0--al\0a.txt\0");
    case(rt, "the version", b"--version\0");
    case(rt, "too few files", b"compare\0a.txt\0");
    case(rt, "too many files", b"list\0a.txt\0b.txt\0");
    case(rt, "one file of two", b"union\0a.txt\0");
    case(rt, "an option behind --", b"list\0--\0--count\0");
    case(rt, "the standard input twice", b"compare\0-\0-\0");
}

fn main(rt: HostRuntime) {
    comparisons(rt);
    lists(rt);
    files(rt);
    read_back(rt);
    usage(rt);
}
