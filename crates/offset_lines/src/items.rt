// The words for one item and for many in the last line of a list.
#[derive(Clone, Copy)]
pub struct Items<'a> {
    pub one: &'a [u8],
    pub many: &'a [u8],
}
