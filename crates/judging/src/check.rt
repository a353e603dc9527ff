// The check of one descriptor: its entries in 01's order, each taken once.
ghost use Rattle.std.specs.Prelude.{◌≡◌, ◌+◌, ◌*◌, ◌-◌, ◌≤◌, length, ltb};
ghost use Rattle.blocks.specs.Pick.{pick, all_zero};
ghost use Rattle.blocks.specs.Bytes.{block_size, part};
ghost use Rattle.blocks.specs.Descriptor.{physical, table_size, phi_size};
ghost use Rattle.entries.specs.Naming.{table_namings, entry_namings, tables_namings, phi_namings, namings};
ghost use Rattle.entries.specs.Marks.{taking_all, EntriesReady, TableReady, TablesReady, PhiReady, CheckReady};
ghost use Rattle.entries.specs.Found.{verdict_as};

use blocks::descriptor::Descriptor;
use blocks::numbers::Physical;
use blocks::sizes::{BLOCK_SIZE, PHI_START, TABLE_SIZE};
use blocks::{bytes, descriptor};
use entries::find::Misplaced;
use finding::find;
use flagging::flags;

// Whether the bytes of block `p` from byte `from` on are zero.
fn is_clear_from(card: &[u8], p: Physical, from: usize) -> bool
    requires { (block_size * p.0 + block_size ≤ length card.now) × (from ≤ block_size) }
    ensures { result ≡ all_zero (part card.now (block_size * p.0 + from) (block_size - from)) }
{
    let at = p.start();
    bytes::all_zero(&card[at + from..at + BLOCK_SIZE])
}

// A descriptor whose entries are taken: its card, and the turn in which it is checked.
#[derive(Clone, Copy)]
struct Walked<'a> {
    card: &'a [u8],
    d: Descriptor,
    turn: u8,
}

impl<'a> Walked<'a> {
    // Where the set entries of table block `m` must stay below: alpha if the table is an old one, else beta.
    fn limit_of(self, m: Physical) -> Physical
        ensures { result ≡ physical (pick (ltb m.0 self.entry.d.alpha.0) self.entry.d.alpha.0 self.entry.d.beta.0) }
    {
        if m < self.d.alpha {
            self.d.alpha
        } else {
            self.d.beta
        }
    }

    // Takes the entries of table block `m` from entry `from` up to entry `to`, all counted, up to the first at fault.
    fn take_run(self, m: Physical, from: u32, to: u32, seen: &mut [u8]) -> Result<(), Misplaced>
        requires { EntriesReady self.card.now self.d m.0 seen.old × (to ≤ table_size) }
        ensures { record { verdict = verdict_as result; flags = seen.new } ≡ taking_all self.entry.d self.entry.turn seen.old (entry_namings self.entry.card.now m.0 table_size (to - from) from) }
    {
        let limit = self.limit_of(m);
        for j in from..to {
            let v = find::entry_at(self.card, m, j);
            if !flags::take_entry(seen, self.turn, limit, true, v) {
                return Err(Misplaced(m));
            }
        }
        Ok(())
    }

    // Takes the first `n` entries of table block `m`, all counted, up to the first at fault: four in each turn, which the compiler writes out. With one in each
    // turn a check in layout 2 takes 1.7 times as long as the benchmark's baseline, with four 1.3 times, and it may take 1.5 times as long.
    fn take_entries(self, m: Physical, n: u32, seen: &mut [u8]) -> Result<(), Misplaced>
        requires { EntriesReady self.card.now self.d m.0 seen.old × (n ≤ table_size) }
        ensures { record { verdict = verdict_as result; flags = seen.new } ≡ taking_all self.entry.d self.entry.turn seen.old (entry_namings self.entry.card.now m.0 table_size n 0) }
    {
        for k in 0..n / 4 {
            self.take_run(m, 4 * k, 4 * k + 4, seen)?;
        }
        self.take_run(m, 4 * (n / 4), n, seen)
    }

    // Takes the 128 entries of table block `m`, the table of group `i`, up to the first at fault: those before L one by one, then those past it together.
    fn take_table(self, i: u32, m: Physical, seen: &mut [u8]) -> Result<(), Misplaced>
        requires { TableReady self.card.now self.d i m.0 seen.old }
        ensures { record { verdict = verdict_as result; flags = seen.new } ≡ taking_all self.entry.d self.entry.turn seen.old (table_namings self.entry.card.now self.entry.d i m.0 table_size 0) }
    {
        let left = TABLE_SIZE.min(self.d.volume.saturating_sub(TABLE_SIZE * i));
        self.take_entries(m, left, seen)?;
        if !is_clear_from(self.card, m, 4 * (left as usize)) {
            return Err(Misplaced(m));
        }
        Ok(())
    }

    // Takes the entries of the `n` tables of a layout 1 descriptor.
    fn take_tables(self, n: u32, seen: &mut [u8]) -> Result<(), Misplaced>
        requires { TablesReady self.card.now self.d n seen.old }
        ensures { record { verdict = verdict_as result; flags = seen.new } ≡ taking_all self.entry.d self.entry.turn seen.old (tables_namings self.entry.card.now self.entry.d n 0) }
    {
        for i in 0..n {
            let m = find::table_of(self.card, self.d, i);
            self.take_table(i, m, seen)?;
        }
        Ok(())
    }

    // Takes Phi and the tables that it names, of a layout 2 descriptor with `n` tables.
    fn take_phi(self, n: u32, seen: &mut [u8]) -> Result<(), Misplaced>
        requires { PhiReady self.card.now self.d n seen.old }
        ensures { record { verdict = verdict_as result; flags = seen.new } ≡ taking_all self.entry.d self.entry.turn seen.old (phi_namings self.entry.card.now self.entry.d phi_size 0) }
    {
        let alpha = self.d.alpha;
        for i in 0..n {
            let table = find::table_of(self.card, self.d, i);
            if !flags::take_entry(seen, self.turn, self.d.beta, true, table) {
                return Err(Misplaced(alpha));
            }
            if !table.is_nil() {
                // the fault is the table's, and not the descriptor's, which named it
                if let Err(fault) = self.take_table(i, table, seen) {
                    return Err(fault);
                }
            }
        }
        if !is_clear_from(self.card, alpha, PHI_START + 4 * (n as usize)) {
            return Err(Misplaced(alpha));
        }
        Ok(())
    }
}

// Takes all entries of the descriptor `d` of the chain, in turn `turn` and in 01's order, up to the first at fault.
pub fn check_one(card: &[u8], d: Descriptor, seen: &mut [u8], turn: u8) -> Result<(), Misplaced>
    requires { CheckReady card.now d seen.old }
    ensures { record { verdict = verdict_as result; flags = seen.new } ≡ taking_all d turn seen.old (namings card.now d) }
{
    let n = descriptor::table_count(d.volume);
    let walked = Walked { card, d, turn };
    if d.layout == 1 {
        walked.take_tables(n, seen)
    } else {
        walked.take_phi(n, seen)
    }
}
