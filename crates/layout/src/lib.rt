// Where the words of a sheet stand: accessors over any words, which read 0 past the end, as the definitions do. None asks anything of its
// caller. Only this crate, `bodies` and `fill`, which puts the words there, know how many words a row or a stream has.
#![tactic(auto)]

ghost use Rattle.std.specs.Prelude.{◌≡◌, ◌*◌, ◌/◌, ◌<◌, ◌^◌};
ghost use Rattle.model.specs.Limits.{stream_words};
ghost use Rattle.model.specs.Sheet.{word, row_at, place, stream_count, budget, streams_up_to, first_body_at, contents_words};
ghost use Rattle.layout.specs.Rows.{row_as};

// A word as an index.
pub fn wide(x: u32) -> usize
    ensures { (result ≡ x) × (result < 2 ^ 32) }
{
    x as usize
}

// The word at an index of a lent table; 0 past its end.
pub fn word_at(table: &[u32], i: usize) -> u32
    ensures { result ≡ word table.now i }
{
    table.get(i).copied().unwrap_or(0)
}

// Where the contents row of node k stands.
pub fn row_at(k: u32) -> usize
    ensures { (result ≡ row_at k) × (result < 2 ^ 34) }
{
    3 + 3 * wide(k.saturating_sub(1))
}

// The place of node k's body, as its row has it.
pub fn place_of(sheet: &[u32], k: u32) -> u32
    ensures { result ≡ place sheet.now k }
{
    word_at(sheet, row_at(k))
}

// The number of streams of node k.
pub fn stream_count(sheet: &[u32], k: u32) -> u32
    ensures { result ≡ stream_count sheet.now k }
{
    word_at(sheet, row_at(k) + 1)
}

// The budget of node k.
pub fn budget_of(sheet: &[u32], k: u32) -> u32
    ensures { result ≡ budget sheet.now k }
{
    word_at(sheet, row_at(k) + 2)
}

// A contents row: where the node's body stands, how many streams it has, and its budget.
#[derive(Clone, Copy)]
pub struct Row {
    pub place: u32,
    pub streams: u32,
    pub budget: u32,
}

// The contents row of node k, in one look; 0 past the end.
pub fn row_of(sheet: &[u32], k: u32) -> Row
    ensures { result ≡ row_as sheet.now k }
{
    let at = row_at(k);
    let (place, streams, budget) = match sheet.get(at..at + 3) {
        Some([place, streams, budget]) => (*place, *streams, *budget),
        _ => (word_at(sheet, at), word_at(sheet, at + 1), 0),
    };
    Row {
        place,
        streams,
        budget,
    }
}

// The words that the bodies of so many streams take.
pub fn body_words(count: u32) -> usize
    ensures { (result ≡ stream_words * count) × (result < 2 ^ 34) }
{
    3 * wide(count)
}

// How many streams have their bodies in so many words.
pub fn streams_in(words: usize) -> usize
    ensures { result ≡ words / stream_words }
{
    words / 3
}

// The streams of nodes 1 to k together.
#[tactic(auto, using(theory::proofs::Sums::sum_to_none, theory::proofs::Sums::sum_to_split))]
pub fn streams_up_to(sheet: &[u32], k: u32) -> usize
    ensures { result ≡ streams_up_to sheet.now k }
{
    let mut sum = 0;
    for i in 1..=k {
        sum += wide(stream_count(sheet, i));
    }
    sum
}

// Where the first body of n nodes stands.
pub fn first_body_at(n: u32) -> usize
    ensures { (result ≡ first_body_at n) × (result < 2 ^ 34) }
{
    3 + 3 * wide(n)
}

// The words before the first body of a sheet.
pub fn contents_words(sheet: &[u32]) -> usize
    ensures { (result ≡ contents_words sheet.now) × (result < 2 ^ 34) }
{
    first_body_at(word_at(sheet, 0))
}
