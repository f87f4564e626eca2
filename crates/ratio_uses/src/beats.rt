//! The voices of a polyrhythm: their beats in order of time, without drift, and the time when all meet.
//!
//! A voice beats once in each of its periods. Its k-th beat comes at exactly k periods.
ghost use Rattle.std.specs.Prelude.{◌↔◌, All, IsTrue};
ghost use Rattle.ratio_integer.specs.Fraction.{SameValue};
ghost use Rattle.num_rational.specs.Reduced.{lowest_numbers};
ghost use Rattle.ratio_uses.specs.Beats.{AllAreHeld, BeatIsHeld, ChecksBeat, ChecksBeatNumbers, ChecksCount, ChecksEarliest, ChecksMeeting, ChecksNextBeat, ChecksStart, CountIsHeld, CountsBeat, CountsEach, IsBefore, IsEarliest, IsUpTo, StartsEach, next_time, period_of};

use num_rational::Reduced64;
use ratio_core::rounding::floor;

/// A voice: how often it beats, and how many beats it has had.
#[derive(Clone, Copy, Debug)]
pub struct Voice {
    /// The time from one beat to the next.
    pub period: Reduced64,
    /// How many beats the voice has had.
    pub count: i64,
}

/// The time of the next beat of all voices, which is the earliest of their next beats. Each voice that has its next
/// beat then counts one more. For example, voices with the periods 1/2 and 1/3 that have had no beat yet, beat at 1/3,
/// 1/2, 2/3 and 1, where both count one more. `None` exactly where there is no voice, or the number or the time of a
/// voice's next beat does not fit in 64 bits. Then nothing has changed.
pub fn next_beat(voices: &mut [Voice]) -> Option<Reduced64>
    ensures { ChecksNextBeat voices.old voices.new result }
{
    let time = earliest(voices)?;
    count_beats(voices, &time);
    Some(time)
}

/// Whether each voice has a count of beats at this time.
fn have_counts(voices: &[Voice], time: &Reduced64) -> bool
    ensures { IsTrue result ↔ All (λ voice. CountIsHeld (lowest_numbers time.now) (period_of voice)) voices.now }
{
    voices.iter().all(|voice| has_count(time, &voice.period))
}

fn has_count(time: &Reduced64, period: &Reduced64) -> bool
    ensures { IsTrue result ↔ CountIsHeld (lowest_numbers time.now) (lowest_numbers period.now) }
{
    count_at(time, period).is_some()
}

/// Sets the count of each voice to the number of beats that it has had up to this time, and at it. The next beat is
/// then the first one after this time. For example, at 7/4 a voice with the period 1/2 has had 3 beats. It has beats
/// before 0 too: at -1/4 its count is -1, and its next beat comes at 0. `false` exactly where a period is not above 0
/// or a count does not fit in 64 bits. Then nothing has changed.
pub fn start_at(voices: &mut [Voice], time: &Reduced64) -> bool
    ensures { ChecksStart (lowest_numbers time.now) voices.old voices.new result }
{
    let held = have_counts(voices, time);
    if held {
        set_counts(voices, time);
    }
    held
}

/// The first time above 0 at which all voices have a beat. It is the least common multiple of their periods: 1 for 1/2
/// and 1/3. `None` exactly where there is no such time that fits in 64 bits: there is no voice, a period is not above
/// 0, or the time does not fit.
pub fn meet(voices: &[Voice]) -> Option<Reduced64>
    ensures { ChecksMeeting voices.now result }
{
    if voices.is_empty() {
        return None;
    }
    let mut time = voices[0].period;
    if *time.numer() < 1 {
        return None;
    }
    for voice in voices {
        let (numer, _) = voice.period.into_raw();
        if numer < 1 {
            return None;
        }
        time = time.checked_lcm(&voice.period)?;
    }
    Some(time)
}

// The earliest of the voices' next beats.
fn earliest(voices: &[Voice]) -> Option<Reduced64>
    ensures { ChecksEarliest voices.now result }
{
    if voices.is_empty() {
        return None;
    }
    let first = voices[0];
    let (_, mut time) = next_numbers(&first.period, first.count)?;
    for i in 1..voices.len() {
        let voice = voices[i];
        let (_, next) = next_numbers(&voice.period, voice.count)?;
        if is_before(next, time) {
            time = next;
        }
    }
    Reduced64::checked_new(time.0, time.1)
}

// Whether the first time is before the second.
fn is_before(first: (i64, i64), second: (i64, i64)) -> bool
    ensures { IsTrue result ↔ IsBefore first second }
{
    (first.0 as i128 * second.1 as i128) < (second.0 as i128 * first.1 as i128)
}

// Whether both times are the same.
fn is_same(first: (i64, i64), second: (i64, i64)) -> bool
    ensures { IsTrue result ↔ SameValue first.0 first.1 second.0 second.1 }
{
    first.0 as i128 * second.1 as i128 == second.0 as i128 * first.1 as i128
}

// Counts one more for each voice whose next beat comes at this time. No voice has it before.
fn count_beats(voices: &mut [Voice], time: &Reduced64)
    requires held { AllAreHeld voices.old }
    requires earliest { IsEarliest voices.old (lowest_numbers time.now) }
    ensures { CountsEach (lowest_numbers time.now) voices.old voices.new }
{
    for voice in voices.iter_mut() {
        voice.count = count_after(voice, time);
    }
}

// The count of a voice after a beat of some voice at this time.
fn count_after(voice: &Voice, time: &Reduced64) -> i64
    requires held { BeatIsHeld (period_of voice.now) voice.now.count }
    requires up_to { IsUpTo (lowest_numbers time.now) (next_time voice.now) }
    ensures { CountsBeat (lowest_numbers time.now) voice.now result }
{
    let (count, next) = next_numbers(&voice.period, voice.count).unwrap();
    if !is_same(next, time.into_raw()) {
        return voice.count;
    }
    count
}

// The number and the time of the beat after `count` beats. The time is a pair of numbers, with a denominator above 0, and need
// not be in lowest terms: only a product that does not fit has to be reduced.
fn next_numbers(period: &Reduced64, count: i64) -> Option<(i64, (i64, i64))>
    ensures { ChecksBeatNumbers (lowest_numbers period.now) count result }
{
    let next = count.checked_add(1)?;
    let (numer, denom) = period.into_raw();
    if let Some(product) = numer.checked_mul(next) {
        return Some((next, (product, denom)));
    }
    let (next, time) = beat_after(period, count)?;
    Some((next, time.into_raw()))
}

// The number and the time of the beat after `count` beats.
fn beat_after(period: &Reduced64, count: i64) -> Option<(i64, Reduced64)>
    ensures { ChecksBeat (lowest_numbers period.now) count result }
{
    let next = count.checked_add(1)?;
    Some((next, period.checked_mul(next)?))
}

// Sets the count of each voice to the number of its beats up to this time, and at it.
fn set_counts(voices: &mut [Voice], time: &Reduced64)
    requires { All (λ voice. CountIsHeld (lowest_numbers time.now) (period_of voice)) voices.old }
    ensures { StartsEach (lowest_numbers time.now) voices.old voices.new }
{
    for voice in voices.iter_mut() {
        voice.count = count_at(time, &voice.period).unwrap();
    }
}

// How many beats a voice has had up to this time, and at it: the floor of the time over its period.
fn count_at(time: &Reduced64, period: &Reduced64) -> Option<i64>
    ensures { ChecksCount (lowest_numbers time.now) (lowest_numbers period.now) result }
{
    let (numer, denom) = period.into_raw();
    if numer < 1 {
        return None;
    }
    let (top, bottom) = time.into_raw();
    let part = top as i128 * denom as i128;
    let whole = bottom as i128 * numer as i128;
    i64::try_from(floor(part, whole)).ok()
}
