// What is found in the rows: the first row that some filling breaks. 01, numbers 14 and 15.

#[derive(Clone, Copy, PartialEq, Eq, Debug)]
pub enum Finding {
    // Every filling breaks it.
    Broken {
        place: u32,
        line: u32,
    },
    // Some only do; the condition is the lowest unknown one of the row.
    Unsettled {
        place: u32,
        line: u32,
        condition: u32,
    },
}
