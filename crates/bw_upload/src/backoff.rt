//! How long is waited before the next link.
ghost use Rattle.std.specs.Prelude.{◌≡◌};
ghost use Rattle.bw_upload.specs.Backoff.{backoff, is_spent as is_limit_spent};

/// The milliseconds before the next link, by how many of the last links in a row settled nothing:
/// half a second for none or one, then twice as long each time.
const BACKOFFS: [u32; 7] = [500, 500, 1_000, 2_000, 4_000, 8_000, 16_000];

/// The milliseconds where still more of them settled nothing.
const LONGEST: u32 = 30_000;

/// The milliseconds before the next link, by how many of the last links in a row settled nothing.
pub fn backoff(fruitless: u64) -> u32
    ensures { result ≡ backoff fruitless }
{
    match BACKOFFS.get(fruitless as usize) {
        Some(milliseconds) => *milliseconds,
        None => LONGEST,
    }
}

/// Whether no more links are made: as many in a row as are allowed settled nothing.
pub fn is_spent(most: Option<u32>, fruitless: u64) -> bool
    ensures { result ≡ is_limit_spent most fruitless }
{
    match most {
        None => false,
        Some(count) => u64::from(count) <= fruitless,
    }
}
