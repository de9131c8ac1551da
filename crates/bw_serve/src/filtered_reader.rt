//! A reader of which the filter gives what comes.
ghost use Rattle.std.specs.Prelude.{◌≡◌};
ghost use Rattle.bw_serve.specs.Filters.{starting};
ghost use Rattle.bw_serve.specs.FilteredParts.{inner_reader, filter_of_reader};

use crate::name_filter::NameFilter;
use bw_stream::{IoFailed, Source};

/// A reader, and the filter of what it gives.
#[derive(Drop)]
pub struct FilteredReader<R> {
    reader: R,
    filter: NameFilter,
}

impl<R> FilteredReader<R> {
    /// A reader at the start of an exchange, with one name alone, or with any.
    pub fn new(reader: R, one_name: bool) -> FilteredReader<R>
        ensures reader { inner_reader result ≡ reader }
        ensures filter { filter_of_reader result ≡ starting one_name }
    {
        FilteredReader {
            reader,
            filter: NameFilter::new(one_name),
        }
    }
}

impl<R: Source> Source for FilteredReader<R> {
    ghost use Rattle.bw_serve.specs.FilteredBytes.{left_through};

    ghost left = { λ r. left_through (filter_of_reader r) (R.left (inner_reader r)) };

    ghost moved = { λ r. R.moved (inner_reader r) };

    ghost calls = { λ r. R.calls (inner_reader r) };

    ghost failures = { λ r. R.failures (inner_reader r) };

    fn read(&mut self, buf: &mut [u8]) -> Result<usize, IoFailed> {
        let count = self.reader.read(buf)?;
        self.filter.pass(buf, count);
        Ok(count)
    }
}
