// What a line says: nothing, the item that it names, or, as the last line of a list, how many items the list names.
#[derive(Clone, Copy)]
pub enum Entry<T> {
    Blank,
    Item(T),
    Says(usize),
}

// Why a line may not stand in a text.
#[derive(Clone, Copy)]
pub enum Fault {
    NotANumber,
    NotTwoNumbers,
    TooLarge,
    CarriageReturn,
    TooLong,
    Damaged,
}
