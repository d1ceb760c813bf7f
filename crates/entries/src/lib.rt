// What C calls, through crate entries_c: numbers and byte slices in, one number out. Each entry reads the file it is given, and assumes nothing of
// any input.
#![tactic(auto)]

ghost use Rattle.requests.specs.Requests.{ask};
ghost use Rattle.entries.specs.Entries.{CheckOf, RequestOf, ListOf, QuestionOf, TableOf};

use answers::{carry_out, of_bad_file, of_file, of_listed, of_part, of_refusal, of_reply};
use listing::list;
use parts::find_part;
use policy::{changed, question};
use reading::{no_file, read_file};
use requests::{Request, change_of};

// Is this a policy file?
pub fn aestilumne_check(policy: &[u8]) -> u64
    ensures { CheckOf policy.now result }
{
    let mut file = no_file();
    of_file(read_file(policy, &mut file))
}

// Carries out a request, and writes the policy after it.
pub fn aestilumne_request(
    policy: &[u8],
    officer: u64,
    kind: u64,
    a: u64,
    b: u64,
    out: &mut [u8],
) -> u64
    ensures { RequestOf policy.now (ask officer kind a b) out.old result out.new }
{
    let mut file = no_file();
    let request = Request {
        officer,
        kind,
        a,
        b,
    };
    match read_file(policy, &mut file) {
        Ok(()) => match change_of(&file.policy, true, request) {
            Ok(change) => {
                let number = change.number();
                carry_out(changed(file.policy, a, change), number, out)
            }
            Err(refused) => of_refusal(refused.number()),
        },
        Err(e) => of_bad_file(e),
    }
}

// Lists the requests of kinds 5 to 8 that would be accepted from an officer.
pub fn aestilumne_listing(policy: &[u8], officer: u64, out: &mut [u8]) -> u64
    ensures { ListOf policy.now officer out.old result out.new }
{
    let mut file = no_file();
    match read_file(policy, &mut file) {
        Ok(()) => of_listed(list(&file.policy, officer, out)),
        Err(e) => of_bad_file(e),
    }
}

// May a user exercise a permission?
pub fn aestilumne_question(policy: &[u8], user: u64, permission: u64) -> u64
    ensures { QuestionOf policy.now user permission result }
{
    let mut file = no_file();
    match read_file(policy, &mut file) {
        Ok(()) => of_reply(question(&file.policy, user, permission)),
        Err(e) => of_bad_file(e),
    }
}

// Where does a table stand in the file?
pub fn aestilumne_table(policy: &[u8], table: u64) -> u64
    ensures { TableOf policy.now table result }
{
    of_part(find_part(policy, table))
}
