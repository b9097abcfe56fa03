// The public calls. None asks anything of its caller: any instruction word, operand, processor state, table or list gets an answer.
ghost use Rattle.std.specs.Prelude.{◌≡◌};
ghost use Rattle.calls.specs.Promises.{Decodes, Builds, Reads, Writes, Inserts, LooksUp, ReadsSlot, Executes, Runs, Judges, Lists, Tails};

use listing::Listed;
use machine::{Entry, Match, Objection, Operand, Operation, Refusal, Regime, State, Target, Told};
use words::OperationWord;

// Most words are told by their fixed bits, and most system instructions by CRm, before anything else is read.
#[tactic(auto, unfolding(machine::specs::Word::read_of))]
pub fn decode(word: u64) -> Option<Operation>
    ensures { Decodes word result }
{
    if !OperationWord::is_fixed(word) {
        return None;
    }
    if !OperationWord::has_crm(word) {
        return None;
    }
    OperationWord { bits: word }.read()
}

pub fn build(op: Operation) -> Option<u64>
    ensures { Builds op result }
{
    OperationWord::build(op)
}

pub fn read_operand(told: Told, xt: u64, xt2: u64) -> Result<Operand, Refusal>
    ensures { Reads told xt xt2 result }
{
    operands::read_operand(told, xt, xt2)
}

pub fn write_operand(told: Told, fields: Operand) -> Result<(u64, u64), Refusal>
    ensures { Writes told fields result }
{
    operands::write_operand(told, fields)
}

pub fn insert(table: &mut [u64], entry: Entry, out: u64) -> Result<usize, Refusal>
    ensures { Inserts entry out table.old result table.new }
{
    insertion::insert_entry(table, entry, out)
}

pub fn look_up(
    table: &[u64],
    state: State,
    regime: Regime,
    asid: u16,
    address: u64,
) -> Result<Match, Refusal>
    ensures { LooksUp state regime asid address table.entry.now result table.exit.now }
{
    tables::look_up(table, state, regime, asid, address)
}

pub fn read_slot(table: &[u64], slot: usize) -> Result<(Entry, u64), Refusal>
    ensures { ReadsSlot slot table.entry.now result table.exit.now }
{
    tables::read_slot(table, slot)
}

pub fn execute(
    table: &mut [u64],
    state: State,
    word: u64,
    xt: u64,
    xt2: u64,
) -> Result<usize, Refusal>
    ensures { Executes state word xt xt2 table.old result table.new }
{
    execution::execute(table, state, word, xt, xt2)
}

pub fn run(table: &mut [u64], state: State, list: &[u64]) -> Result<usize, Refusal>
    ensures runs { Runs state list.now table.old result table.new }
    ensures list_kept { list.exit.now ≡ list.entry.now }
{
    running::run(table, state, list)
}

pub fn judge(state: State, target: Target, list: &[u64]) -> Result<(), Objection>
    ensures judges { Judges state target list.now result }
    ensures list_kept { list.exit.now ≡ list.entry.now }
{
    judge::judge(state, target, list)
}

pub fn list(code: &[u8], at: u64, out: &mut [u8]) -> Listed
    ensures lists { Lists code.now at out.old result out.new }
    ensures code_kept { code.exit.now ≡ code.entry.now }
{
    listing::list_code(code, at, out)
}

pub fn tail(left: usize, out: &mut [u8]) -> usize
    ensures { Tails left out.old result out.new }
{
    listing::list_tail(left, out)
}
