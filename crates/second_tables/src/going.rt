// Which entries go: "An entry goes exactly when all hold", one return a rule.
use crate::bits::is_set;
use crate::range::level_of_hint;
use crate::step::Step;
use crate::table::holds;
use machine::{Company, Entry};

pub fn goes(step: Step, entry: Entry) -> bool {
    // "its processor is below the count and reached"
    if !is_set(step.scope.reached, entry.processor) {
        return false;
    }
    if !is_of_company(step, entry.company) {
        return false;
    }
    if u64::from(entry.granule) != step.fields.tg {
        return false;
    }
    if !meets(step, entry) {
        return false;
    }
    if !is_hinted(step, entry) {
        return false;
    }
    if step.scope.last && !entry.leaf {
        return false;
    }
    let own_asid = u64::from(entry.asid) == step.fields.asid;
    if step.scope.asid && !own_asid && !(entry.leaf && entry.global) {
        return false;
    }
    !(step.scope.nxs && entry.xs)
}

// "regime, security state, VMID, stage and IPA space agree"
pub fn is_of_company(step: Step, company: Company) -> bool {
    let scope = step.scope;
    company
        == Company {
            regime: scope.regime,
            security: scope.security,
            vmid: scope.vmid,
            stage2: scope.stage2,
            ns: step.fields.ns == 1,
        }
}

// "its span meets the range": two runs of addresses meet exactly when one of them holds the first address of the other.
fn meets(step: Step, entry: Entry) -> bool {
    let first = step.fields.base;
    (first <= entry.base && entry.base <= step.last) || holds(entry, first)
}

// "TTL 00, or its width is the operation's and it is non-leaf above the TTL level or a leaf at it; another width needs TTL 00 and D128"
fn is_hinted(step: Step, entry: Entry) -> bool {
    let own = entry.wide == step.tlbip;
    match level_of_hint(step.fields.ttl) {
        None => own || step.d128,
        Some(level) if entry.leaf => own && entry.level == level,
        Some(level) => own && entry.level < level,
    }
}
