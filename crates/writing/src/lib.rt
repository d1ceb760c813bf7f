// Writes the policy file, part by part, each directly after the part before it.
#![tactic(auto)]

ghost use Rattle.std.specs.Prelude.{◌≡◌, ◌≤◌, ltb, length};
ghost use Rattle.policy.specs.Good.{Good};
ghost use Rattle.layout.specs.Layout.{policy_bytes, tables_bytes, sections_bytes, TableSizes};
ghost use Rattle.writers.specs.Writers.{Room, Wrote};
ghost use Rattle.writing.specs.Writing.{Output};

use layout::file_length;
use order::Order;
use policy::{Members, People, Policy, Ranges, Refusal, Tables};
use writers::{put_number, write_order, write_permissions, write_ranges, write_rows, write_users};

// The five tables: each is lent the rest of the buffer, from where the table before it ends.
fn write_tables(out: &mut [u8], t: Tables, m: Ranges) -> usize
    requires { TableSizes t m × Room (tables_bytes t m) 0 out.old }
    ensures { Wrote (tables_bytes t m) 0 out.old result out.new }
{
    let assign = write_rows(out, true, t.assign);
    let revoke = assign + write_rows(&mut out[assign..], false, t.revoke);
    let assignp = revoke + write_rows(&mut out[revoke..], true, t.assignp);
    let revokep = assignp + write_rows(&mut out[assignp..], false, t.revokep);
    revokep + write_ranges(&mut out[revokep..], m)
}

// The file up to its tables.
fn write_sections(
    out: &mut [u8],
    roles: Order,
    admins: Order,
    people: People,
    permissions: Members,
) -> usize
    requires { (people.users.count ≤ 256) × ((permissions.count ≤ 256) × Room (sections_bytes roles admins people permissions) 0 out.old) }
    ensures { Wrote (sections_bytes roles admins people permissions) 0 out.old result out.new }
{
    let first = put_number(out, 0, 1);
    let second = write_order(out, first, roles);
    let third = write_order(out, second, admins);
    let fourth = write_users(out, third, people);
    write_permissions(out, fourth, permissions)
}

// The file of any good policy fits so many bytes.
const ENOUGH: usize = 10375;

// Is the file longer than so many bytes? Where it never is, its bytes are not counted before they are written.
fn is_short(p: Policy, room: usize) -> bool
    requires { Good p }
    ensures { result ≡ ltb room (length (policy_bytes p)) }
{
    room < ENOUGH && room < file_length(p)
}

// Writes the file of a policy from the start of the buffer, and gives how many bytes it has. Where it does not fit, nothing is written.
pub fn write_policy(p: Policy, out: &mut [u8]) -> Result<usize, Refusal>
    requires { Good p }
    ensures { Output p out.old result out.new }
{
    if is_short(p, out.len()) {
        return Err(Refusal::BufferTooShort);
    }
    let at = write_sections(
        out,
        p.orders.roles,
        p.orders.admins,
        p.people,
        p.permissions,
    );
    let past = at + write_tables(&mut out[at..], p.tables, p.modify);
    Ok(past)
}
