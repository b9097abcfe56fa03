// How far the last address of a slot's span lies from its base.
ghost use Rattle.std.specs.Prelude.{◌≡◌};
ghost use Rattle.laws.specs.Bits.{bits};
ghost use Rattle.tags.specs.Ends.{end_of};

// A row for each granule, by height and width as they stand side by side in a tag; 0 where there is no span. The exponents would fit four lines, but
// a shift at each slot that is read makes a pass take 1.13 times as long.
const ENDS: [[u64; 16]; 4] = [
    [0; 16],
    [
        0xFFF,
        0xFFF,
        0x1FFFFF,
        0xFFFFF,
        0x3FFFFFFF,
        0xFFFFFFF,
        0x7FFFFFFFFF,
        0xFFFFFFFFF,
        0xFFFFFFFFFFFF,
        0xFFFFFFFFFFF,
        0,
        0xFFFFFFFFFFFFF,
        0,
        0,
        0,
        0,
    ],
    [
        0x3FFF,
        0x3FFF,
        0x1FFFFFF,
        0xFFFFFF,
        0xFFFFFFFFF,
        0x3FFFFFFFF,
        0x7FFFFFFFFFFF,
        0xFFFFFFFFFFF,
        0,
        0x3FFFFFFFFFFFFF,
        0,
        0,
        0,
        0,
        0,
        0,
    ],
    [
        0xFFFF,
        0xFFFF,
        0x1FFFFFFF,
        0xFFFFFFF,
        0x3FFFFFFFFFF,
        0xFFFFFFFFFF,
        0,
        0xFFFFFFFFFFFFF,
        0,
        0,
        0,
        0,
        0,
        0,
        0,
        0,
    ],
];

// 0 and no Option where there is no span: the definition `end_of` says 0, and the test of a slot asks for that.
// Of what stands in a tag.
pub fn end_of(tag: u64) -> u64
    ensures { result ≡ end_of tag }
{
    end_at(tag / 0x4000000 % 4, tag)
}

// The same where the granule is known: a pass over the slots of one granule has its row at hand.
pub fn end_at(granule: u64, tag: u64) -> u64
    requires { granule ≡ bits 27 26 tag }
    ensures { result ≡ end_of tag }
{
    let place = tag / 0x200000000000 % 16;
    ENDS[granule as usize][place as usize]
}
