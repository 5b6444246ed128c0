// Points at which a test can hold those that stream.

/// What those that stream samples pass at set points of their way. A test can hold one of them at a
/// point until another one has come to its own; nothing that is written depends on it. The points are:
///
/// | Point | Who passes it | When |
/// |---|---|---|
/// | 1 | a board | before a put at a place that is a multiple of its ring's size |
/// | 2 | a board | after a put that found the ring full |
/// | 3 | a client that reads in place | before it releases at least one sample |
/// | 3 | a client that copies | before each copy |
/// | 4 | a client | after it has released at least one sample |
pub trait Gate {
    /// Passes a point. `who` is the number of the line of the job, from 0.
    fn pass(&self, who: u32, point: u32);
}

/// A gate that holds nobody.
#[derive(Clone, Copy, Debug, PartialEq, Eq)]
pub struct OpenGate;

impl Gate for OpenGate {
    fn pass(&self, _who: u32, _point: u32) {}
}
