// A scan of a buffer.
use std::marker::Model;

/// The munged samples of one scan: one for each entry of the command's channel list, or fewer where
/// an end cuts it.
#[derive(Drop)]
pub struct Scan {
    /// The place of the first sample.
    pub first: u64,
    pub words: Vec<u32>,
}

impl Model for Scan {
    ghost use Rattle.cm_stream.specs.Scans.{ScanText, scan_text};

    ghost Value = { ScanText };

    ghost view = { λ s. scan_text s.first s.words.items };
}
