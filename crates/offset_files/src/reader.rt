use text_lines::FileReport;

// A reader of a text of offsets: the report on it, how many offsets are named again, the set of its offsets, and the table, one lent word for each offset, since the project allocates none. It is made where the buffers are lent: with a `new` that ensures the ghost name of each, its caller did not learn what they hold at the end.
#[derive(Drop)]
pub struct OffsetReader<'a, 'n, 'b> {
    pub report: &'a mut FileReport<'n, 'b>,
    pub repeats: usize,
    pub words: &'a mut [u64],
    pub table: &'a mut [u64],
}
