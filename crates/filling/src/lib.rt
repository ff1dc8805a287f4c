// Functions that fill lent buffers and slices: with job numbers, with fates, with 0, or at one place.
#![tactic(auto)]

ghost use Rattle.std.specs.Prelude.{map, ◌≡◌, ◌≤◌, get_or, length, set, take};
ghost use Rattle.columns.specs.Columns.{AllBelow};
ghost use Rattle.rules.specs.TableText.{most_jobs, padded};

use rules::MOST_JOBS;

// A number stored at a place, where there is that place.
pub fn note(part: &mut [u64], at: usize, number: u64)
    ensures { part.new ≡ set part.old at number }
{
    if at < part.len() {
        part[at] = number;
    }
}

// "places after it hold 0": those behind the first `count`, which stay.
pub fn clear_behind(out: &mut [u64], count: usize)
    requires { count ≤ length out.old }
    ensures { out.new ≡ padded (length out.old) 0 (take count out.old) }
{
    out[count..].fill(0);
}

// Each of these places becomes the number of the job there.
fn name_places(part: &mut [u64], number: &[u64; MOST_JOBS])
    requires { AllBelow most_jobs part.old }
    ensures { part.new ≡ map (λ p. get_or number.now p 0) part.old }
{
    for place in part.iter_mut() {
        *place = number[*place as usize];
    }
}

// The first `count` of a buffer, which are places, become the numbers of their jobs, and those after them 0.
pub fn name_order(order: &mut [u64], count: usize, number: &[u64; MOST_JOBS])
    requires { (count ≤ length order.old) × AllBelow most_jobs (take count order.old) }
    ensures { order.new ≡ padded (length order.old) 0 (map (λ p. get_or number.now p 0) (take count order.old)) }
{
    name_places(&mut order[..count], number);
    clear_behind(order, count);
}

// "the plan is handed back as the front part of the lent order buffer, as job numbers; places after it hold 0".
pub fn put_order(order: &mut [u64], places: &[u64], number: &[u64; MOST_JOBS])
    requires { (length places.now ≤ length order.old) × AllBelow most_jobs places.now }
    ensures { order.new ≡ padded (length order.old) 0 (map (λ p. get_or number.now p 0) places.now) }
{
    let count = places.len();
    order[..count].copy_from_slice(places);
    name_order(order, count, number);
}

// "Fate places follow the J lines; places after the last hold 0."
pub fn put_fates(out: &mut [u64], fates: &[u64])
    requires { length fates.now ≤ length out.old }
    ensures { out.new ≡ padded (length out.old) 0 fates.now }
{
    let count = fates.len();
    out[..count].copy_from_slice(fates);
    clear_behind(out, count);
}
