// What the tool is asked to do.
#[derive(Clone, Copy, Debug, PartialEq, Eq)]
pub(crate) enum Command {
    Compare,
    List,
    Union,
    Intersection,
    Difference,
    SymmetricDifference,
    Renumber,
}

// The name of no command.
#[derive(Clone, Copy, Debug, PartialEq, Eq)]
pub(crate) struct UnknownCommand<'a>(pub &'a [u8]);

impl<'a> TryFrom<&'a [u8]> for Command {
    type Error = UnknownCommand<'a>;

    fn try_from(name: &'a [u8]) -> Result<Command, UnknownCommand<'a>> {
        match name {
            b"compare" => Ok(Command::Compare),
            b"list" => Ok(Command::List),
            b"union" => Ok(Command::Union),
            b"intersection" => Ok(Command::Intersection),
            b"difference" => Ok(Command::Difference),
            b"symmetric-difference" => Ok(Command::SymmetricDifference),
            b"renumber" => Ok(Command::Renumber),
            _ => Err(UnknownCommand(name)),
        }
    }
}
