// What the line of a loop job asks.
use cm_test::test::Accepted;

/// What a `loop` line asks: an input's command, called at `t_in` nanoseconds, and an output's, called
/// at `t_out`, which puts out the means of up to `window` samples of the input.
#[derive(Drop)]
pub struct LoopLine {
    pub t_in: u64,
    pub t_out: u64,
    /// How many samples of a list entry stand in a mean, 1 to 16.
    pub window: u32,
    pub input: Accepted,
    pub output: Accepted,
}
