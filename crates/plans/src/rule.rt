// How one parameter of a link's target comes from a word of the from task.
#[derive(Clone, Copy)]
pub struct Rule {
    // the parameter whose value it starts from; without one it starts from 0
    pub pick: Option<u8>,
    pub add: i16,
    pub divisor: u8,
}
