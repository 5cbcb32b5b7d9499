// A line that is no form: no form goes on at this column, counted from 1.
#[derive(Clone, Copy, PartialEq, Eq, Debug)]
pub struct TextFault {
    pub column: usize,
}
