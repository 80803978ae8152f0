// Versions of a summary written: what changed, or the whole.
ghost use Rattle.std.specs.Prelude.{◌≡◌, ◌+◌, ◌*◌, ◌/◌, ◌<◌, ◌≤◌, true, false, length, Some as Just, None as Nothing, MatchOption, MatchResult};
ghost use Rattle.filter.specs.Summaries.{has_value, differs, tally};
ghost use Rattle.icp.specs.Contents.{changes, whole as full, entry_octets};
ghost use Rattle.icp.specs.Writing.{Written, listable, changed, listed, declaration, declaration_refusal, whole_refusal};

use crate::contents::{Change, Header};
use crate::opcode::Opcode;
use crate::refusals::MessageFault;
use crate::writing::{filter_fields, put, put_parts};
use filter::Summary;

impl Change {
    // The octets of an entry.
    fn octets(self) -> [u8; 4]
        requires { self.position < 2147483648 }
        ensures { result ≡ entry_octets self }
    {
        let value = if self.value { 0x8000_0000 } else { 0 };
        (value + self.position).to_be_bytes()
    }
}

// Whether a value is 1 in an octet.
fn has_value(octet: u8, k: u32) -> bool
    requires { k < 8 }
    ensures { result ≡ has_value octet k }
{
    (octet >> k) % 2 == 1
}

// Two summaries of one size, and in how many positions they differ: so few that a list of them is the shorter message.
#[derive(Clone, Copy)]
struct ChangeList<'s> {
    before: &'s Summary,
    after: &'s Summary,
    count: u32,
    ghost one_size: { before.now.size.positions ≡ after.now.size.positions },
    ghost counted: { count ≡ tally (differs before.now.octets.items after.now.octets.items) after.now.size.positions },
    ghost short: { 4 * count < after.now.size.positions / 8 },
}

impl<'s> ChangeList<'s> {
    // The changes between two summaries, where they are few enough.
    fn between(before: &'s Summary, after: &'s Summary) -> Option<ChangeList<'s>>
        ensures { MatchOption result (listable after.now.size.positions before.now.size.positions before.now.octets.items after.now.octets.items ≡ false) (λ l. (listable after.now.size.positions before.now.size.positions before.now.octets.items after.now.octets.items ≡ true) × (l.before.now ≡ before.now) × (l.after.now ≡ after.now)) }
    {
        let count = before.differences(after)?;
        if 4 * (count as usize) < after.size().octets() {
            Some(ChangeList {
                before,
                after,
                count,
            })
        } else {
            None
        }
    }

    // Writes the entries, behind the first 32 octets.
    fn put_entries(self, out: &mut [u8])
        requires { 32 + 4 * self.count ≤ length out.old }
        ensures { out.new ≡ listed out.old self.entry.before.now.octets.items self.entry.after.now.octets.items self.entry.after.now.size.positions }
    {
        let after = self.after.octets();
        // All octets, since the summaries are of one size: cut to the other's length, so that the loop has one end to test.
        let before = &self.before.octets()[..after.len()];
        let pairs = before.iter().zip(after);
        // The place is counted, since only positions that differ are written.
        let mut at = 32;
        for (i, (before, after)) in pairs.enumerate() {
            if before != after {
                for k in 0..8 {
                    let value = has_value(*after, k);
                    if has_value(*before, k) != value {
                        let position = 8 * i as u32 + k;
                        put(out, at, &Change { position, value }.octets());
                        at += 4;
                    }
                }
            }
        }
    }

    // Writes the version of the second summary by what changed, and answers its length.
    fn put(self, out: &mut [u8], sender: u32, version: u32) -> usize
        requires some_version { 1 ≤ version }
        requires room { 32 + 4 * self.count ≤ length out.old }
        ensures { Written self.entry.after.now.size.positions (changes sender version (changed self.entry.before.now.octets.items self.entry.after.now.octets.items self.entry.after.now.size.positions)) out.old out.new result }
    {
        let length = 32 + 4 * self.count as usize;
        let header = Header {
            opcode: Opcode::Changes,
            request: version,
            option: version - 1,
            sender,
        };
        let filter = filter_fields(self.after.size().positions(), self.count);
        put_parts(out, &[&header.octets(length as u16), &filter]);
        self.put_entries(out);
        length
    }
}

// Writes a version whole, and answers its length.
fn put_whole(out: &mut [u8], sender: u32, version: u32, summary: &Summary) -> usize
    requires { 32 + summary.now.size.positions / 8 ≤ length out.old }
    ensures { Written summary.now.size.positions (full sender version summary.now.octets.items) out.old out.new result }
{
    let size = summary.size();
    let length = 32 + size.octets();
    let header = Header {
        opcode: Opcode::Whole,
        request: version,
        option: 0,
        sender,
    };
    let filter = filter_fields(size.positions(), 0);
    put_parts(
        out,
        &[&header.octets(length as u16), &filter, summary.octets()],
    );
    length
}

// Writes the version that follows an earlier one: what changed since the summary declared before, or the whole. The output has to have room for the whole; its rest remains.
pub fn write_declaration(
    sender: u32,
    earlier: u32,
    before: &Summary,
    after: &Summary,
    out: &mut [u8],
) -> Result<usize, MessageFault>
    ensures { MatchResult result (λ n. (declaration_refusal sender earlier after.now.size.positions (length out.old) ≡ Nothing) × Written after.now.size.positions (declaration sender earlier after.now.size.positions before.now.size.positions before.now.octets.items after.now.octets.items) out.old out.new n) (λ f. (declaration_refusal sender earlier after.now.size.positions (length out.old) ≡ Just f) × (out.new ≡ out.old)) }
{
    let Some(version) = earlier.checked_add(1) else {
        return Err(MessageFault::LastVersion { house: sender });
    };
    if out.len() < 32 + after.size().octets() {
        return Err(MessageFault::Output { house: sender });
    }
    match ChangeList::between(before, after) {
        Some(list) => Ok(list.put(out, sender, version)),
        None => Ok(put_whole(out, sender, version, after)),
    }
}

// Writes a version whole. The output's rest remains.
pub fn write_whole(
    sender: u32,
    version: u32,
    summary: &Summary,
    out: &mut [u8],
) -> Result<usize, MessageFault>
    ensures { MatchResult result (λ n. (whole_refusal sender version summary.now.size.positions (length out.old) ≡ Nothing) × Written summary.now.size.positions (full sender version summary.now.octets.items) out.old out.new n) (λ f. (whole_refusal sender version summary.now.size.positions (length out.old) ≡ Just f) × (out.new ≡ out.old)) }
{
    if version == 0 {
        return Err(MessageFault::NothingDeclared { house: sender });
    }
    if out.len() < 32 + summary.size().octets() {
        return Err(MessageFault::Output { house: sender });
    }
    Ok(put_whole(out, sender, version, summary))
}
