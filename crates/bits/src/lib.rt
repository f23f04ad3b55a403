// Bits in octets, least significant bit first: words of up to eight octets at any octet, and octets of the bits from any bit on.
#![tactic(auto)]

ghost use Rattle.std.specs.Prelude.{◌≡◌, ◌+◌, ◌*◌, ◌^◌, ◌≤◌, ◌<◌, length};
ghost use Rattle.lists.specs.Parts.{part, over};
ghost use Rattle.bits.specs.Bits.{field, value, bits, octets};

// word gives the 64 bits of the eight octets from octet i on. The compiler makes one load of it.
pub fn word(s: &[u8], i: usize) -> u64
    requires { i + 8 ≤ length s.now }
    ensures { result ≡ value (part (8 * i) 64 (bits s.now)) }
{
    u64::from_le_bytes(s[i..i + 8].try_into().unwrap())
}

// store puts the low n octets of w at octet i and reads nothing back; every other octet stays. It takes the whole buffer and a place, as copy
// does, and not a part of it: one clause says so what of a lent buffer changes and what stays.
pub fn store(s: &mut [u8], i: usize, w: u64, n: usize)
    requires { (i + n ≤ length s.old) × (n ≤ 8) }
    ensures { s.new ≡ over s.old i n (octets n (field (8 * n) w)) }
{
    s[i..i + n].copy_from_slice(&w.to_le_bytes()[..n]);
}

// Octets that a word is sure to hold of the bits from any bit of its first octet on.
const SURE: usize = 7;

// copy puts n octets of the bits from bit from on to octet to of out, seven to a word; every other octet stays. The last word ends where
// the bits do.
pub fn copy(s: &[u8], from: usize, n: usize, out: &mut [u8], to: usize)
    requires { (from + 8 * n ≤ length s.now * 8) × (from + 8 * n + 7 < 2 ^ 64) × (8 ≤ n) × (to + n ≤ length out.old) }
    ensures { out.new ≡ over out.old to n (octets n (part from (8 * n) (bits s.now))) }
{
    let before_last = (n - 1) / SURE;
    for j in 0..before_last {
        let t = from + 8 * SURE * j;
        store(out, to + SURE * j, word(s, t / 8) >> (t % 8), SURE);
    }
    let put = SURE * before_last;
    let last = (from + 8 * n + 7) / 8 - 8;
    let k = from + 8 * put - 8 * last;
    store(out, to + put, word(s, last) >> k, n - put);
}
