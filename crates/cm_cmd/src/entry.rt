// A channel, its range and its reference as one number.
ghost use Rattle.std.specs.Prelude.{◌≡◌};
ghost use Rattle.cm_cmd.specs.Entry as bits;

/// The entry of a channel (its low 16 bits count), a range (8 bits) and a reference (2 bits: ground
/// 0, common 1, diff 2, other 3). Comedi: `CR_PACK`.
pub fn pack(chan: u32, range: u32, aref: u32) -> u32
    ensures { result ≡ bits.pack chan range aref }
{
    (aref % 4) * 16777216 + (range % 256) * 65536 + chan % 65536
}

/// The channel of an entry, 0 to 65,535 (Comedi: `CR_CHAN`).
pub fn chan(entry: u32) -> u32
    ensures { result ≡ bits.chan entry }
{
    entry % 65536
}

/// The number of an entry's range, 0 to 255 (Comedi: `CR_RANGE`).
pub fn range(entry: u32) -> u32
    ensures { result ≡ bits.range entry }
{
    entry / 65536 % 256
}

/// The number of an entry's reference, 0 to 3 (Comedi: `CR_AREF`).
pub fn aref(entry: u32) -> u32
    ensures { result ≡ bits.aref entry }
{
    entry / 16777216 % 4
}
