// The sheet of a search: the greatest, at each place, over the cases in the store.
ghost use Rattle.std.specs.Prelude.{◌≡◌, ◌*◌, max, length, get_or, drop};
ghost use Rattle.laws.specs.Rewritten.{Rewritten};
ghost use Rattle.sheet.specs.Sheet.{sheet_words};
ghost use Rattle.cases.specs.Records.{cases_in, HasCases, HasCase, SetCodes};
ghost use Rattle.evaluation.specs.Evaluation.{Evaluable};
ghost use Rattle.bounds.specs.Bounds.{case_sheet, sheet_over};

use super::evaluate;
use cases::{CaseNumber, store};
use evaluation::Setting;
use sheet::Word;

// Raises each word of a sheet to that of another.
fn raise(sheet: &mut [Word], other: &[Word])
    requires { (length sheet.old ≡ 8192) × (length other.now ≡ 8192) }
    ensures { Rewritten (λ i. max (get_or sheet.old i 0) (get_or other.now i 0)) 0 8192 sheet.old sheet.new }
{
    for i in 0..8192 {
        sheet[i] = sheet[i].max(other[i]);
    }
}

// Draws the sheet of case k: its simulation where it is decided, else its envelope.
fn draw_case(setting: Setting<'_>, store: &[u8], k: CaseNumber, sheet: &mut [Word], work: &mut [u8])
    requires { Evaluable setting sheet.old work.old × HasCase store.now k.0 × SetCodes setting.inputs (drop (72 * k.0) store.now) }
    ensures { sheet.new ≡ sheet_words (case_sheet setting.entry (drop (72 * k.0) store.now)) }
{
    let codes = store::read_sets(store, k);
    evaluate::evaluate_case(setting, &codes, sheet, work);
}

// Draws the sheet over the first n cases.
pub fn draw_cases(setting: Setting<'_>, store: &[u8], n: usize, sheet: &mut [Word], work: &mut [u8])
    requires { Evaluable setting sheet.old work.old × HasCases setting.inputs store.now n }
    ensures { sheet.new ≡ sheet_words (sheet_over setting.entry.file.now setting.entry.hops (cases_in setting.entry.inputs store.now n)) }
{
    let mut one: [Word; 8192] = [0; 8192];
    sheet::clear(sheet);
    for k in 0..n {
        draw_case(setting, store, CaseNumber(k), &mut one, work);
        raise(sheet, &one);
    }
}
