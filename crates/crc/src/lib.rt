// The CRC of a pair packet: a register of four bits that is stepped one bit at a time and handed back.
#![tactic(auto)]

ghost use Rattle.std.specs.Prelude.{◌≡◌, ◌*◌, ◌≤◌, ◌<◌};
ghost use Rattle.bits.specs.Bits.{field};
ghost use Rattle.crc.specs.Crc.{none, fed, fed_all, code, coded};

// The register as it is sent: X^3 is 1, X^2 is 2, X is 4 and 1 is 8, so that it moves right with the data.
// A mask in the steps would hide their shape from the compiler, so a step asks for a register, which is below 16, as `new` and every
// method hand it back; `octets` masks for its callers. So the type does not say that it is below 16: `octets` takes any octet.
#[derive(Clone, Copy)]
pub struct Crc(pub u8);

impl Crc {
    // new gives the register that nothing was fed to.
    #[tactic(auto, using(crate::proofs::Register::code_none))]
    pub fn new() -> Self
        ensures { result.0 ≡ code none }
    {
        Crc(0)
    }

    // step gives the next register: the bit is added to the highest power, and all is times X, where X^4 is X + 1.
    pub fn step(self, bit: bool) -> Self
        requires { self.0 < 16 }
        ensures { result.0 ≡ code (fed (coded self.0) bit) }
    {
        let moved = self.0 >> 1;
        if (self.0 % 2 == 1) ^ bit {
            Crc(moved ^ 12)
        } else {
            Crc(moved)
        }
    }

    // octet gives the register after the eight bits of an octet. In this shape the compiler makes a table of the eight steps; with x >> k in
    // the k-th turn it makes none, which takes five times as long.
    pub fn octet(self, x: u8) -> Self
        requires { self.0 < 16 }
        ensures { result.0 ≡ code (fed_all (coded self.0) (field 8 x)) }
    {
        let mut r = self;
        let mut left = x;
        for _ in 0..8u32 {
            r = r.step(left % 2 == 1);
            left >>= 1;
        }
        r
    }

    // octets gives the register after the 8n low bits of a word. Only the register's own four bits count.
    pub fn octets(self, w: u64, n: u32) -> Self
        requires { n ≤ 8 }
        ensures { result.0 ≡ code (fed_all (coded self.0) (field (8 * n) w)) }
    {
        let mut r = Crc(self.0 & 15);
        for octet in &w.to_le_bytes()[..n as usize] {
            r = r.octet(*octet);
        }
        r
    }
}
