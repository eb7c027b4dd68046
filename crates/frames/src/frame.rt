// One moment of sound: a left and a right sample.
#[derive(Clone, Copy, PartialEq, Eq, Debug, Default)]
pub struct Frame {
    pub left: i16,
    pub right: i16,
}
