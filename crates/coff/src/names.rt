// Where the name of a section stands: in its header, or in the string table.
ghost use Rattle.std.specs.Prelude.{◌≡◌, true, ◌+◌, ◌≤◌, length};
ghost use Rattle.coff.specs.Names.{is_in_table};
ghost use Rattle.coff.specs.Steps.{Names};

use crate::section::Header;
use fields::number::u32_at;
use patterns::zero::before_zero;

// In the string table, from the offset on that the header has. The table may lie far past the file, so that its place is counted wide.
fn in_table<'a>(header: &Header<'a>) -> Option<&'a [u8]>
    requires { is_in_table header.now.file.now header.now.at ≡ true }
    ensures { Names header.now.file.now header.now.at result }
{
    let f = header.file;
    let offset = u32_at(f, header.at + 4) as usize;
    if offset < 4 {
        return None;
    }
    let table = u32_at(f, 8) as usize + 18 * u32_at(f, 12) as usize;
    let behind = table + 4;
    if f.len() < behind {
        return None;
    }
    let size = u32_at(f, table) as usize;
    let end = (table + size).min(f.len());
    let rest = f.get(table + offset..end)?;
    let long = before_zero(rest);
    if rest.len() <= long {
        return None;
    }
    Some(&rest[..long])
}

// Four zero bytes and four that are not are an offset; otherwise the name stands here, at most eight bytes of it.
pub fn name_at<'a>(header: &Header<'a>) -> Option<&'a [u8]>
    ensures { Names header.now.file.now header.now.at result }
{
    let f = header.file;
    let at = header.at;
    let far = (u32_at(f, at) == 0) & !(u32_at(f, at + 4) == 0);
    if far {
        return in_table(header);
    }
    let field = &f[at..at + 8];
    Some(&field[..before_zero(field)])
}
