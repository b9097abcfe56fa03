// The generator: number k of a seed, and what is taken from it. A number depends on nothing else, so that an input is made again from its place alone.
// A seed stays a number beside k: `seed.below(0, 16)` would say no more than `below(seed, 0, 16)`.

ghost use Rattle.std.specs.Prelude.{◌≤◌, ◌-◌};

pub fn draw(seed: u64, k: u64) -> u64 {
    let a = seed.wrapping_add((k % 65536 + 1) * 0x9E3779B97F4B);
    let b = a ^ (a >> 29);
    let c = ((b % 4294967296) * 0x9E3779B1).wrapping_add(b >> 32);
    let d = c ^ (c << 17);
    let e = ((d >> 32) % 4294967296 * 0x85EBCA6B).wrapping_add(d % 4294967296);
    let f = e ^ (e >> 27);
    (f % 4294967296 * 0xC2B2AE35).wrapping_add(f >> 31)
}

// A number below n, and 0 for an n of 0.
pub fn below(seed: u64, k: u64, n: u64) -> u64
    ensures { result ≤ n - 1 }
{
    if n == 0 { 0 } else { draw(seed, k) / 8 % n }
}

pub fn flip(seed: u64, k: u64) -> bool {
    below(seed, k, 2) == 1
}

// True once in n times.
pub fn once_in(seed: u64, k: u64, n: u64) -> bool {
    below(seed, k, n) == 0
}

pub fn small(seed: u64, k: u64, n: u64) -> u8
    ensures { result ≤ n - 1 }
{
    (below(seed, k, n) % 256) as u8
}

// 0, 1, 65535 or any: a VMID or an ASID.
pub fn number16(seed: u64, k: u64) -> u16 {
    let any = (draw(seed, k) / 16 % 65536) as u16;
    match below(seed, k.wrapping_add(1000), 8) {
        0..=1 => 0,
        2..=4 => any % 3,
        5 => u16::MAX,
        _ => any,
    }
}

pub fn power(k: u64) -> u64 {
    1 << (k % 64)
}

// The multiple of 2^k at or below x.
pub fn down(x: u64, k: u64) -> u64 {
    let bits = k % 64;
    (x >> bits) << bits
}
