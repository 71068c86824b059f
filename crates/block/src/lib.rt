// The block rule: FIPS 180-4 §6.2.2 and §6.4.2, SPEC, "One block", written once for both widths. Each function is the standard's of its
// name, W is a word and N the number of rounds; a clause speaks of words as the numbers that they are.
// `absorb32` and `absorb64` run the rule over the whole blocks of a slice, each taken straight from the caller's bytes.
#![tactic(auto)]

mod word; // word.rt: what the rule asks of a word
mod narrow; // narrow.rt: words of 32 bits
mod wide; // wide.rt: words of 64 bits

ghost use Rattle.std.specs.Prelude.{◌≡◌, ℕ, ◌+◌, ◌*◌, ◌<◌, ◌≤◌, List, map, length, take, drop, slice_index, slice_set};
ghost use mathlib.Core.List.{zip_with};
ghost use Rattle.bigendian.specs.BigEndian.{number};
ghost use Rattle.bigendian.specs.Words.{to_words};
ghost use Rattle.fips.specs.Words.{w32, w64, add, block_bytes};
ghost use Rattle.fips.specs.Block.{next, schedule, T1, T2, round, rounds, block};
ghost use Rattle.fips.specs.Constants.{chain, round_words};
ghost use Rattle.fips.specs.Code.ByteForm.{parse_bytes};

use crate::word::{Rounds, Word};

// The block's word at t.
fn load<W: Word>(s: &[u8], t: usize) -> W
    requires { (length s.now ≡ block_bytes W.width) × (t < 16) }
    ensures { W.value result ≡ number (take W.width.bytes (drop (W.width.bytes * t) s.now)) }
{
    let at = W::BYTES * t;
    W::read(&s[at..at + W::BYTES])
}

// The schedule begins with the block's own words.
fn begin<W: Word, const N: usize>(w: &mut [W; N], s: &[u8])
    requires { (length s.now ≡ block_bytes W.width) × (16 ≤ N) }
    ensures long { length w.new ≡ N }
    ensures front { take 16 (map W.value w.new) ≡ to_words 16 W.width.bytes s.now }
{
    for t in 0..16 {
        w[t] = load(s, t);
    }
}

// W_t from 16 on: the recurrence does not look at the block m.
fn next<W: Word, const N: usize>(w: &[W; N], t: usize) -> W
    requires { (16 ≤ t) × (t < N) }
    ensures { (m : List ℕ) → W.value result ≡ next W.width m t (map W.value w.now) }
{
    w[t - 2]
        .small1()
        .add(w[t - 7])
        .add(w[t - 15].small0())
        .add(w[t - 16])
}

// W_t, stored at its place.
fn extend<W: Word, const N: usize>(w: &mut [W; N], t: usize)
    requires { (16 ≤ t) × (t < N) }
    ensures { (m : List ℕ) → map W.value w.new ≡ slice_set (map W.value w.old) t (next W.width m t (map W.value w.old)) }
{
    w[t] = next(w, t);
}

// All words of the schedule, eight a turn: a word that was just stored is then still at hand.
fn schedule<W: Rounds<N>, const N: usize>(w: &mut [W; N], s: &[u8])
    requires { length s.now ≡ block_bytes W.width }
    ensures { map W.value w.new ≡ schedule W.width (to_words 16 W.width.bytes s.now) N }
{
    begin(w, s);
    for t in (16..N).step_by(8) {
        extend(w, t);
        extend(w, t + 1);
        extend(w, t + 2);
        extend(w, t + 3);
        extend(w, t + 4);
        extend(w, t + 5);
        extend(w, t + 6);
        extend(w, t + 7);
    }
}

// T1
fn t1<W: Word>(s: &[W; 8], k: W, w: W) -> W
    ensures { W.value result ≡ T1 W.width (W.value k) (W.value w) (map W.value s.now) }
{
    s[7].add(s[4].big1()).add(s[4].ch(s[5], s[6])).add(k).add(w)
}

// T2
fn t2<W: Word>(s: &[W; 8]) -> W
    ensures { W.value result ≡ T2 W.width (map W.value s.now) }
{
    s[0].big0().add(s[0].maj(s[1], s[2]))
}

// Each letter moves on one place; e takes T1 too, and a is T1 + T2.
fn round<W: Word>(s: [W; 8], k: W, w: W) -> [W; 8]
    ensures { map W.value result ≡ round W.width (W.value k) (W.value w) (map W.value s) }
{
    let t1 = t1(&s, k, w);
    let t2 = t2(&s);
    let [a, b, c, d, e, f, g, _] = s;
    [t1.add(t2), a, b, c, d.add(t1), e, f, g]
}

// The round of W_t.
fn turn<W: Word, const N: usize>(s: [W; 8], k: &[W; N], w: &[W; N], t: usize) -> [W; 8]
    requires { t < N }
    ensures { map W.value result
        ≡ round W.width (slice_index (map W.value k.now) t) (slice_index (map W.value w.now) t) (map W.value s) }
{
    round(s, k[t], w[t])
}

// Eight rounds a turn: each letter is then back in its place, and none is moved in between.
fn rounds<W: Rounds<N>, const N: usize>(h: [W; 8], k: &[W; N], w: &[W; N]) -> [W; 8]
    ensures { map W.value result ≡ rounds W.width (map W.value k.now) (map W.value w.now) N (map W.value h) }
{
    let mut s = h;
    for t in (0..N).step_by(8) {
        let s1 = turn(s, k, w, t);
        let s2 = turn(s1, k, w, t + 1);
        let s3 = turn(s2, k, w, t + 2);
        let s4 = turn(s3, k, w, t + 3);
        let s5 = turn(s4, k, w, t + 4);
        let s6 = turn(s5, k, w, t + 5);
        let s7 = turn(s6, k, w, t + 6);
        let s8 = turn(s7, k, w, t + 7);
        s = s8;
    }
    s
}

// The next chaining words: the old ones and the letters, summed place by place.
fn added<W: Word>(s: [W; 8], h: [W; 8]) -> [W; 8]
    ensures { map W.value result ≡ zip_with (add W.width) (map W.value s) (map W.value h) }
{
    let mut r = s;
    for i in 0..8 {
        r[i] = r[i].add(h[i]);
    }
    r
}

fn block<W: Rounds<N>, const N: usize>(h: [W; 8], k: &[W; N], s: &[u8]) -> [W; 8]
    requires { length s.now ≡ block_bytes W.width }
    ensures { map W.value result ≡ block W.width (map W.value k.now) (map W.value h) (to_words 16 W.width.bytes s.now) }
{
    let mut w = [W::default(); N];
    schedule(&mut w, s);
    added(rounds(h, k, &w), h)
}

// The chaining words after the whole blocks of the slice; a rest of fewer bytes than a block has is not looked at.
// The round words k are read where they lie: copied, they would take as much of the stack as the schedule.
fn absorb<W: Rounds<N>, const N: usize>(h: [W; 8], k: &[W; N], s: &[u8]) -> [W; 8]
    requires { map W.value k.now ≡ round_words W.width }
    ensures { map W.value result ≡ chain W.width (map W.value h) (parse_bytes W.width s.now) }
{
    let mut v = h;
    for bytes in s.chunks_exact(16 * W::BYTES) {
        v = block(v, k, bytes);
    }
    v
}

// At words of 32 bits. Not inlined: else its callers' frames would hold the schedule too.
#[inline(never)]
pub fn absorb32(h: [u32; 8], s: &[u8]) -> [u32; 8]
    ensures { result ≡ chain w32 h (parse_bytes w32 s.now) }
{
    absorb(h, fips::tables::round32_lent(), s)
}

// At words of 64 bits, and not inlined either.
#[inline(never)]
pub fn absorb64(h: [u64; 8], s: &[u8]) -> [u64; 8]
    ensures { result ≡ chain w64 h (parse_bytes w64 s.now) }
{
    absorb(h, fips::tables::round64_lent(), s)
}
