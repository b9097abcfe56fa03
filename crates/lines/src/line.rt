// The text of one operation's line, part by part; the longest line has 52 bytes. By hand, and not by `Display`: the
// library has no heap, and of what `write!` puts into a lent buffer a contract cannot name the bytes.
ghost use Rattle.std.specs.Prelude.{◌≤◌, ◌<◌, length};
ghost use Rattle.machine.specs.Listing.{name_text, share_text, nxs_text, kind_text, register_text, second_text};
ghost use Rattle.machine.specs.Listing.{line_of};
ghost use Rattle.text.specs.Put.{Put, HasRoom, Gains, SameBuffer};

use machine::{Name, Operation, Share};
use text::Line;

pub fn put_line(out: &mut [u8], at: u64, op: Operation) -> usize
    requires { (52 ≤ length out.old) × (op.rt < 32) }
    ensures { Put out.old 0 out.new result (line_of at op) 52 }
{
    let mut line = Line::new(out);
    put_parts(&mut line, at, op);
    line.len
}

fn put_parts(line: &mut Line<'_>, at: u64, op: Operation)
    requires { HasRoom line.old 52 × (op.rt < 32) }
    ensures gains { Gains line.old line.new (line_of at op) 52 }
    ensures buffer { SameBuffer line.old line.new }
{
    let rt = op.rt as u64;
    line.put_number(at);
    put_kind(line, op.tlbip);
    put_name(line, op.name);
    put_share(line, op.share);
    put_nxs(line, op.nxs);
    put_register(line, rt);
    put_second(line, op.tlbip, rt);
    line.put_byte(b'\n');
}

// Each text is put where it is chosen, with its length known: with texts that are chosen first and then put, a listing of
// operations alone takes 1.4 times as long.
fn put_kind(line: &mut Line<'_>, tlbip: bool)
    requires { HasRoom line.old 7 }
    ensures gains { Gains line.old line.new (kind_text tlbip) 7 }
    ensures buffer { SameBuffer line.old line.new }
{
    if tlbip {
        line.put_text(b" TLBIP ")
    } else {
        line.put_text(b" TLBI ")
    }
}

fn put_name(line: &mut Line<'_>, name: Name)
    requires { HasRoom line.old 9 }
    ensures gains { Gains line.old line.new (name_text name) 9 }
    ensures buffer { SameBuffer line.old line.new }
{
    match name {
        Name::RVAE1 => line.put_text(b"RVAE1"),
        Name::RVAAE1 => line.put_text(b"RVAAE1"),
        Name::RVALE1 => line.put_text(b"RVALE1"),
        Name::RVAALE1 => line.put_text(b"RVAALE1"),
        Name::RVAE2 => line.put_text(b"RVAE2"),
        Name::RVALE2 => line.put_text(b"RVALE2"),
        Name::RVAE3 => line.put_text(b"RVAE3"),
        Name::RVALE3 => line.put_text(b"RVALE3"),
        Name::RIPAS2E1 => line.put_text(b"RIPAS2E1"),
        Name::RIPAS2LE1 => line.put_text(b"RIPAS2LE1"),
    }
}

fn put_share(line: &mut Line<'_>, share: Share)
    requires { HasRoom line.old 2 }
    ensures gains { Gains line.old line.new (share_text share) 2 }
    ensures buffer { SameBuffer line.old line.new }
{
    match share {
        Share::Local => (),
        Share::Inner => line.put_text(b"IS"),
        Share::Outer => line.put_text(b"OS"),
    }
}

fn put_nxs(line: &mut Line<'_>, nxs: bool)
    requires { HasRoom line.old 3 }
    ensures gains { Gains line.old line.new (nxs_text nxs) 3 }
    ensures buffer { SameBuffer line.old line.new }
{
    if nxs {
        line.put_text(b"NXS");
    }
}

// Register numbers have at most two digits.
fn put_register(line: &mut Line<'_>, rt: u64)
    requires { HasRoom line.old 5 × (rt < 100) }
    ensures gains { Gains line.old line.new (register_text rt) 5 }
    ensures buffer { SameBuffer line.old line.new }
{
    if rt == 31 {
        return line.put_text(b", XZR");
    }
    line.put_text(b", X");
    line.put_number(rt);
}

// TLBIP names the register behind too; that of 31 is 31.
fn put_second(line: &mut Line<'_>, tlbip: bool, rt: u64)
    requires { HasRoom line.old 5 × (rt < 32) }
    ensures gains { Gains line.old line.new (second_text tlbip rt) 5 }
    ensures buffer { SameBuffer line.old line.new }
{
    if tlbip {
        put_register(line, if rt == 31 { 31 } else { rt + 1 });
    }
}
