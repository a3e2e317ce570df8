use text_lines::FileReport;

// A reader of a text of pairs: the report on it, the new length, and the tables, one lent word for each old offset and for each new one with its line and its partner, since the project allocates none. It is made where the buffers are lent: with a `new` that ensures the ghost name of each, its caller did not learn what they hold at the end.
#[derive(Drop)]
pub struct PairReader<'a, 'n, 'b> {
    pub report: &'a mut FileReport<'n, 'b>,
    pub size: usize,
    pub to: &'a mut [u64],
    pub from: &'a mut [u64],
}
