// How many calls either side has.
#[derive(Clone, Copy)]
pub struct Calls {
    pub positions: u8,
    pub lines: u8,
}
