// Spans of levels, as the makers need them.

// The span exponent at a height (3 minus the level); over 54 there is none.
pub fn exponent(wide: bool, granule: u64, height: u64) -> u64 {
    let g = granule % 4 * 2;
    let step = if wide { 6 + g } else { 7 + g };
    10 + g + height.min(5) * step
}

// A non-leaf height that has a span, at or below the one given.
pub fn height_with_span(wide: bool, granule: u64, height: u64) -> u64 {
    if exponent(wide, granule, height) <= 54 {
        height
    } else if exponent(wide, granule, 3) <= 54 {
        3
    } else {
        2
    }
}
