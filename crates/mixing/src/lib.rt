// Four words mixed by four rounds of SipHash, with its constants and a salt. There is no secret in it. A packet's salt is made from all of its bytes, so
// whoever writes a packet learns how its keys are mixed when it is whole, and with every change of it they are mixed in another way.
#![tactic(auto)]

ghost use Rattle.std.specs.Prelude.{◌≡◌, ◌<◌};
ghost use Rattle.mixing.specs.Mixing.{stir, mix};

// What a round works on.
#[derive(Clone, Copy)]
struct Words {
    a: u64,
    b: u64,
    c: u64,
    d: u64,
}

// One round.
fn stirred(w: Words) -> Words
    ensures { result ≡ stir w }
{
    let e = w.a.wrapping_add(w.b);
    let f = w.b.rotate_left(13) ^ e;
    let g = w.c.wrapping_add(w.d);
    let h = w.d.rotate_left(16) ^ g;
    let a = e.rotate_left(32).wrapping_add(h);
    let d = h.rotate_left(21) ^ a;
    let t = g.wrapping_add(f);
    let b = f.rotate_left(17) ^ t;
    let c = t.rotate_left(32);
    Words { a, b, c, d }
}

// A key's four words, mixed with a salt. It stays a call, so that index's search can be compiled into each place that asks for it.
#[inline(never)]
pub fn mixed(salt: u64, a: u64, b: u64, c: u64, d: u64) -> u64
    ensures { result ≡ mix salt a b c d }
{
    let w = Words {
        a: a ^ salt ^ 8317987319222330741,
        b: b ^ 7237128888997146477,
        c: c ^ salt ^ 7816392313619706465,
        d: d ^ 8387220255154660723,
    };
    let v = stirred(stirred(stirred(stirred(w))));
    v.a ^ v.c
}

// One more word taken in, as SipHash does.
fn absorbed(w: Words, word: u64) -> Words {
    let v = stirred(Words { d: w.d ^ word, ..w });
    Words { a: v.a ^ word, ..v }
}

// A salt for the keys of a packet, made from all of its bytes. The cost is one round for every eight bytes. It is not 0; no
// promise rests on more.
pub fn salt_of(bytes: &[u8]) -> u64
    ensures { 0 < result }
{
    let mut w = Words {
        a: 8317987319222330741,
        b: 7237128888997146477,
        c: 7816392313619706465,
        d: 8387220255154660723,
    };
    let count = bytes.len() / 8;
    for i in 0..count {
        w = absorbed(w, packets::number_at(bytes, 8 * i, 8));
    }
    let rest = packets::number_at(bytes, 8 * count, 8);
    let v = stirred(stirred(stirred(stirred(absorbed(w, rest)))));
    (v.a ^ v.b ^ v.c ^ v.d) % 9223372036854775808 + 1
}
