// Words put into the first words of a lent part; a part that is too short for them stays as it is. What is put there is a sheet's
// header, a contents row or a stream; layout's accessors read the same words.
#![tactic(auto)]

ghost use Rattle.std.specs.Prelude.{◌≡◌, [], ◌∷◌};
ghost use Rattle.theory.specs.Listing.{put_front};

// Some words.
#[tactic(auto, using(theory::proofs::Overwriting::put_fits, theory::proofs::Overwriting::put_not))]
pub fn put(values: &[u32], part: &mut [u32])
    ensures { part.new ≡ put_front values.now part.old }
{
    if values.len() <= part.len() {
        part[..values.len()].copy_from_slice(values);
    }
}

// The header: n, TMS and TPR.
pub fn put_header(nodes: u32, message: u32, slot: u32, part: &mut [u32])
    ensures { part.new ≡ put_front (nodes ∷ message ∷ slot ∷ []) part.old }
{
    let words = [nodes, message, slot];
    put(&words, part);
}

// A contents row: the place of the body, the number of streams and the budget.
pub fn put_row(place: u32, count: u32, budget: u32, part: &mut [u32])
    ensures { part.new ≡ put_front (place ∷ count ∷ budget ∷ []) part.old }
{
    let words = [place, count, budget];
    put(&words, part);
}

// A stream of a body: its period, its deadline and its jitter.
pub fn put_stream(period: u32, deadline: u32, jitter: u32, part: &mut [u32])
    ensures { part.new ≡ put_front (period ∷ deadline ∷ jitter ∷ []) part.old }
{
    let words = [period, deadline, jitter];
    put(&words, part);
}
