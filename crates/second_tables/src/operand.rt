// The operand reader and writer. A word is taken apart by the places of its fields; the writer puts the fields together, reads them back and
// compares, so that whatever does not come back as it was given is answer 8.
use crate::bits::{cleared_below, copied_up, doubled, field};
use crate::span::granule_exponent;
use machine::{Form, Operand, Refusal, Told};

pub fn read(told: Told, xt: u64, xt2: u64) -> Result<Operand, Refusal> {
    let tg = field(xt, 46, 2);
    let granule = granule_exponent(tg).ok_or(Refusal::NoGranule)?;
    Ok(Operand {
        asid: field(xt, 48, asid_width(told.form)),
        ns: field(xt, 63, ns_width(told.form)),
        tg,
        scale: field(xt, 44, 2),
        num: field(xt, 39, 5),
        ttl: hint(told.lpa2, tg, field(xt, 37, 2)),
        base: base_of(told, granule, xt, xt2),
    })
}

pub fn write(told: Told, fields: Operand) -> Result<(u64, u64), Refusal> {
    let granule = granule_exponent(fields.tg).ok_or(Refusal::Illegal)?;
    let xt = first_word(told, granule, fields);
    let xt2 = if told.tlbip {
        field(fields.base, 12, 44)
    } else {
        0
    };
    if read(told, xt, xt2) == Ok(fields) {
        Ok((xt, xt2))
    } else {
        Err(Refusal::Illegal)
    }
}

// "TTL 01 with 16K and no LPA2 reads as 00", under TLBI and TLBIP.
fn hint(lpa2: bool, tg: u64, ttl: u64) -> u64 {
    if ttl == 1 && tg == 2 && !lpa2 { 0 } else { ttl }
}

fn base_of(told: Told, granule: u8, xt: u64, xt2: u64) -> u64 {
    if told.tlbip {
        let shown = cleared_below(doubled(field(xt2, 0, 44), 12), granule);
        return extended(told.form, shown, 56);
    }
    let unit = unit(told, granule);
    extended(
        told.form,
        doubled(field(xt, 0, 37), unit),
        unit.wrapping_add(37),
    )
}

// "EL1&0 and EL2&0 stage 1 bases copy their top bit upward; others extend by zero."
fn extended(form: Form, shown: u64, width: u8) -> u64 {
    match form {
        Form::TwoRangesAsid | Form::TwoRanges => copied_up(shown, width),
        Form::OneRange | Form::Stage2Ns | Form::Stage2NoNs => shown,
    }
}

fn asid_width(form: Form) -> u8 {
    if form == Form::TwoRangesAsid { 16 } else { 0 }
}

fn ns_width(form: Form) -> u8 {
    if form == Form::Stage2Ns { 1 } else { 0 }
}

// Each field that the form has, cut to its width, at its place.
fn first_word(told: Told, granule: u8, fields: Operand) -> u64 {
    let base_width = if told.tlbip { 0 } else { 37 };
    let unit = unit(told, granule);
    [
        (fields.asid, 48, asid_width(told.form)),
        (fields.ns, 63, ns_width(told.form)),
        (fields.tg, 46, 2),
        (fields.scale, 44, 2),
        (fields.num, 39, 5),
        (fields.ttl, 37, 2),
        (field(fields.base, unit, 37), 0, base_width),
    ]
    .iter()
    .fold(0, |word: u64, &(value, low, width)| {
        word.wrapping_add(doubled(field(value, 0, width), low))
    })
}

// The address bit that a TLBI base begins at.
fn unit(told: Told, granule: u8) -> u8 {
    if told.unit64k { 16 } else { granule }
}
