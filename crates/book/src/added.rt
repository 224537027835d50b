// What a call that adds a sheet answers: the sheet's number, and how many rows it has.
#[derive(Clone, Copy, Debug, PartialEq, Eq)]
pub struct Added {
    pub sheet: u32,
    pub rows: u32,
}
