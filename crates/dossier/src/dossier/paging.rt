// The page of a dossier's plan.
ghost use Rattle.std.specs.Prelude.{◌≡◌, ◌≤◌, [], ◌∷◌, ◌++◌, map, length, drop, unsigned_abs};
ghost use Rattle.std.specs.List.{flat_map};
ghost use Rattle.assertion.specs.Sums.{most_value};
ghost use Rattle.audit.specs.Entries.{lines_from};
ghost use Rattle.audit.specs.Pages.{line_bytes, sample_of, largest};
ghost use Rattle.dossier.specs.Dossiers.{page_shown, pulled_for};

use crate::dossier::Dossier;
use assertion::assorter::Assorter;
use audit::records::AssertionRecord;
use page::assertion_line::assertion_line;
use page::figures::{sample, share};
use page::page_buffer::PageBuffer;
use page::page_length::PageLength;
use page::sink::Sink;
use page::writing::number_line;

impl Dossier {
    // How many ballots to pull for the record; 0 where it is not live.
    fn sample_for(&self, entered: &AssertionRecord) -> u32
        ensures { result ≡ pulled_for self.now.factor self.now.ballots entered.now }
    {
        if !entered.live {
            return 0;
        }
        sample(
            self.factor,
            entered.assertion.top(),
            entered.margin.unsigned_abs(),
            self.ballots,
        )
    }

    // The largest sample of a live assertion.
    fn total(&self) -> u32
        ensures { result ≡ largest (map (sample_of self.now.factor self.now.ballots) (lines_from 1 self.now.records.items)) }
    {
        self.records
            .iter()
            .map(|entered| self.sample_for(entered))
            .max()
            .unwrap_or(0)
    }

    // Writes the four lines of the record under its number, if it is live. On a page every margin is above 0, so that its
    // size is the margin.
    fn write_record<S: Sink>(&self, number: u32, entered: &AssertionRecord, sink: &mut S)
        requires { unsigned_abs entered.now.margin ≤ most_value }
        ensures { S.took sink.old (flat_map (line_bytes self.now.factor self.now.ballots) (lines_from number (entered.now ∷ []))) sink.new }
    {
        if !entered.live {
            return;
        }
        let margin = entered.margin.unsigned_abs();
        // By `as`, since the share of a margin within its bounds fits a u64.
        let part = share(entered.assertion.half(), margin, self.ballots) as u64;
        let pulled = self.sample_for(entered);
        assertion_line(sink, number, &entered.assertion);
        number_line(sink, b"margin=", margin);
        number_line(sink, b"share=", part);
        number_line(sink, b"sample=", u64::from(pulled));
    }

    // Writes the lines of every live record, in the order of their numbers.
    fn write_records<S: Sink>(&self, sink: &mut S)
        ensures { S.took sink.old (flat_map (line_bytes self.now.factor self.now.ballots) (lines_from 1 self.now.records.items)) sink.new }
    {
        for (place, entered) in self.records.iter().enumerate() {
            // By `as`, since there are 256 places at most.
            self.write_record(place as u32 + 1, entered, sink);
        }
    }

    // Writes the whole page.
    pub(crate) fn write_page<S: Sink>(&self, sink: &mut S)
        ensures { S.took sink.old (page_shown self.now) sink.new }
    {
        number_line(sink, b"winner=", u64::from(self.winner));
        number_line(sink, b"ballots=", u64::from(self.ballots));
        number_line(sink, b"endings=", self.endings);
        self.write_records(sink);
        number_line(sink, b"total=", u64::from(self.total()));
    }

    // How many bytes the page has.
    pub(crate) fn page_length(&self) -> u64
        ensures { result ≡ length (page_shown self.now) }
    {
        let mut counted = PageLength::new();
        self.write_page(&mut counted);
        counted.bytes()
    }

    // Stores the page at the start of the buffer; the bytes behind it stay.
    pub(crate) fn store_page(&self, buffer: &mut [u8])
        requires { length (page_shown self.now) ≤ length buffer.old }
        ensures { buffer.new ≡ page_shown self.now ++ drop (length (page_shown self.now)) buffer.old }
    {
        let mut stored = PageBuffer {
            bytes: buffer,
            len: 0,
        };
        self.write_page(&mut stored);
    }
}
