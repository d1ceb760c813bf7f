// The symbols that C links: each calls the entry of its name, and promises what that promises.
#![tactic(auto)]

ghost use Rattle.requests.specs.Requests.{ask};
ghost use Rattle.entries.specs.Entries.{CheckOf, RequestOf, ListOf, QuestionOf, TableOf};

// Is this a policy file?
#[unsafe(no_mangle)]
pub extern "C" fn aestilumne_check(policy: &[u8]) -> u64
    ensures { CheckOf policy.now result }
{
    entries::aestilumne_check(policy)
}

// Carries out a request, and writes the policy after it.
#[unsafe(no_mangle)]
pub extern "C" fn aestilumne_request(
    policy: &[u8],
    officer: u64,
    kind: u64,
    a: u64,
    b: u64,
    out: &mut [u8],
) -> u64
    ensures { RequestOf policy.now (ask officer kind a b) out.old result out.new }
{
    entries::aestilumne_request(policy, officer, kind, a, b, out)
}

// Lists the requests of kinds 5 to 8 that would be accepted from an officer.
#[unsafe(no_mangle)]
pub extern "C" fn aestilumne_listing(policy: &[u8], officer: u64, out: &mut [u8]) -> u64
    ensures { ListOf policy.now officer out.old result out.new }
{
    entries::aestilumne_listing(policy, officer, out)
}

// May a user exercise a permission?
#[unsafe(no_mangle)]
pub extern "C" fn aestilumne_question(policy: &[u8], user: u64, permission: u64) -> u64
    ensures { QuestionOf policy.now user permission result }
{
    entries::aestilumne_question(policy, user, permission)
}

// Where does a table stand in the file?
#[unsafe(no_mangle)]
pub extern "C" fn aestilumne_table(policy: &[u8], table: u64) -> u64
    ensures { TableOf policy.now table result }
{
    entries::aestilumne_table(policy, table)
}
