// Kinds 5 to 8: roles are created and deleted, edges inserted and deleted.
#![tactic(auto, using(crate::proofs::Joined::joined))]

ghost use Rattle.std.specs.Prelude.{◌≡◌, true, false, ◌≤◌, ◌<◌, eqb, length, take};
ghost use Rattle.order.specs.Effects.{create as create_order, insert as insert_order, cut_edge};
ghost use Rattle.sets.specs.Tests.{◌or◌};
ghost use Rattle.sets.specs.Sets.{set_of};
ghost use Rattle.order.specs.Order.{senior};
ghost use Rattle.order.specs.Rows.{Above};
ghost use Rattle.ranges.specs.Rows.{within};
ghost use Rattle.ranges.specs.Ranking.{order_of};
ghost use Rattle.policy.specs.Good.{Sizes, Good};
ghost use Rattle.policy.specs.Change.{decided};
ghost use Rattle.policy.specs.Outcome.{first, outcome_of};
ghost use Rattle.hierarchy.specs.Ground.{SoundSite};
ghost use Rattle.hierarchy.specs.Kinds.{kind_number};
ghost use Rattle.hierarchy.specs.Rules.{site, create_in, row_allows, may_modify, unknown_role, unknown_pair, full, new_role, spoils};
ghost use Rattle.hierarchy.specs.Rules.{row_names, table_names, ranges_name, named, some_in, tied_in};
ghost use Rattle.hierarchy.specs.Rules.{create_rules, delete_rules, insert_rules, cut_rules, create_role, delete_role, insert_edge, delete_edge};

use order::Order;
use policy::{Change, Members, Policy, Ranges, Refusal, Row, Table, Tables, set_at};
use ranges::{ModifyRow, Ranking, in_range};
use sets::{contains, lowest_free, size, with};

// The kinds of request that change the hierarchy, numbered 5 to 8.
#[derive(Clone, Copy, PartialEq, Eq, Debug)]
pub enum HierarchyKind {
    CreateRole,
    DeleteRole,
    InsertEdge,
    DeleteEdge,
}

// What kinds 5 to 8 look at, for an officer.
#[derive(Clone, Copy)]
pub struct Site {
    pub known: bool,
    pub roles: Order,
    pub usable: u64,
    pub modify: Ranges,
}

// The rows of a table that are in use.
fn in_use<T>(rows: &[T; 64], count: usize) -> &[T]
    requires { count ≤ 64 }
    ensures { (result.now ≡ take count rows.now) × (count ≤ length rows.now) }
{
    &rows[..count]
}

// Is a strictly inside the row's range?
#[tactic(auto, using(ranges::proofs::Laws::inside_is), unfolding(ranges::specs::Rows::within))]
fn lies_in(order: &Order, a: usize, row: ModifyRow) -> bool
    ensures { result ≡ within (senior order.now.juniors) row a }
{
    in_range(&order.juniors, row.low, row.high, 0, a)
}

// Kind 5: is low equal or junior to b, and a equal or junior to high?
fn creates_in(order: &Order, a: usize, b: usize, row: ModifyRow) -> bool
    ensures { result ≡ create_in (senior order.now.juniors) a b row }
{
    order.is_at_least(b, row.low.0 as usize) && order.is_at_least(row.high.0 as usize, a)
}

// Has the row what a request of the kind needs?
#[tactic(auto, using(crate::proofs::Joined::joined), unfolding(crate::specs::Rules::row_allows, crate::specs::Rules::edge_in))]
fn row_allows(order: &Order, kind: HierarchyKind, a: usize, b: usize, row: ModifyRow) -> bool
    ensures { result ≡ row_allows (kind_number kind) (senior order.now.juniors) a b row }
{
    match kind {
        HierarchyKind::CreateRole => creates_in(order, a, b, row),
        HierarchyKind::DeleteRole => lies_in(order, a, row),
        HierarchyKind::InsertEdge | HierarchyKind::DeleteEdge => {
            lies_in(order, a, row) && lies_in(order, b, row)
        }
    }
}

impl Site {
    // What the requests of officer o look at.
    #[tactic(auto, unfolding(crate::specs::Rules::site))]
    pub fn of(p: &Policy, o: u64) -> Site
        ensures { result ≡ site p.now o }
    {
        Site {
            known: o < p.people.users.count as u64,
            roles: p.orders.roles,
            usable: p.orders.admins.reached(set_at(&p.people.offices, o)),
            modify: p.modify,
        }
    }

    // Has some row that the officer may use what a request of the kind needs?
    pub fn may_modify(&self, kind: HierarchyKind, a: usize, b: usize) -> bool
        requires { self.now.modify.count ≤ 64 }
        ensures { result ≡ may_modify self.now (kind_number kind) a b }
    {
        in_use(&self.modify.rows, self.modify.count).iter().any(|row| {
            contains(self.usable, row.admin.0 as u64) && row_allows(&self.roles, kind, a, b, *row)
        })
    }

    // Number 2 for one role.
    fn is_unknown_role(&self, a: u64) -> bool
        ensures number { result ≡ unknown_role self.now a }
        ensures below { result ≡ false → a < 64 }
    {
        let used = self.roles.used;
        !(self.known && contains(used, a))
    }

    // Number 2 for two roles.
    fn is_unknown_pair(&self, a: u64, b: u64) -> bool
        ensures number { result ≡ unknown_pair self.now a b }
        ensures below { result ≡ false → (a < 64) × (b < 64) }
    {
        self.is_unknown_role(a) || self.is_unknown_role(b)
    }

    // Number 6.
    #[tactic(auto, unfolding(crate::specs::Rules::full))]
    fn is_full(&self) -> bool
        ensures { result ≡ full self.now }
    {
        size(self.roles.used) == 64
    }

    // Kind 6, refused or not; names and members say whether some row names a and whether someone is in a.
    #[tactic(auto, using(policy::proofs::Outcomes::first_that_holds), unfolding(crate::specs::Rules::delete_rules))]
    pub fn delete_outcome(&self, names: bool, members: bool, a: u64, b: u64) -> Result<(), Refusal>
        requires { self.now.modify.count ≤ 64 }
        ensures { outcome_of result ≡ first (delete_rules self.now names members a b) }
    {
        if b != 0 {
            return Err(Refusal::UnknownKind);
        }
        if self.is_unknown_role(a) {
            return Err(Refusal::UnknownName);
        }
        if !self.may_modify(HierarchyKind::DeleteRole, a as usize, b as usize) {
            return Err(Refusal::NotAllowed);
        }
        if names {
            return Err(Refusal::RoleNamed);
        }
        if members {
            return Err(Refusal::RoleHeld);
        }
        Ok(())
    }
}

// The same question for any number of a kind: the row of a kind that is neither 5 nor 6 allows what an edge needs.
pub fn may_modify(site: &Site, kind: u64, a: usize, b: usize) -> bool
    requires { site.now.modify.count ≤ 64 }
    ensures { result ≡ may_modify site.now kind a b }
{
    if kind == 5 {
        return site.may_modify(HierarchyKind::CreateRole, a, b);
    }
    if kind == 6 {
        return site.may_modify(HierarchyKind::DeleteRole, a, b);
    }
    site.may_modify(HierarchyKind::InsertEdge, a, b)
}

// A site, and what is known of it before a change, so that the many changes of a listing are tested against it.
#[derive(Clone, Copy)]
pub struct Ground {
    pub site: Site,
    // of each role its seniors
    pub seniors: [u64; 64],
    // whether every range is known to be sound; where it is not, each change is tested whole
    pub sound: bool,
    ghost few: { site.modify.count ≤ 64 },
    ghost above: { Above site.roles.juniors seniors },
    ghost sound_before: { sound ≡ true → SoundSite site },
}

impl Ground {
    // Any site. Where sound says so, its ranges are known to be sound.
    pub fn on(site: Site, sound: bool) -> Ground
        requires { (site.modify.count ≤ 64) × (sound ≡ true → SoundSite site) }
        ensures { (result.site ≡ site) × (result.sound ≡ sound) }
    {
        let seniors = site.roles.all_seniors();
        Ground {
            site,
            seniors,
            sound,
        }
    }

    // The site of officer o.
    pub fn of(p: &Policy, sound: bool, o: u64) -> Ground
        requires { (p.now.modify.count ≤ 64) × (sound ≡ true → SoundSite (site p.now o)) }
        ensures { result.site ≡ site p.now o }
    {
        Ground::on(Site::of(p, o), sound)
    }

    // The order before as the juniors see it: who is senior is junior. A change of it with both ends exchanged finds the seniors after.
    fn turned(&self) -> Order
        ensures { result ≡ record { used = self.now.site.roles.used; juniors = self.now.seniors } }
    {
        Order {
            used: self.site.roles.used,
            juniors: self.seniors,
        }
    }

    // Number 9: would some range be unsound after a change?
    fn is_spoilt(&self, after: Ranking) -> bool
        ensures { result ≡ spoils self.now.site (order_of after.entry) }
    {
        let modify = &self.site.modify;
        let rows = in_use(&modify.rows, modify.count);
        if self.sound {
            Ranking::of(&self.site.roles, &self.seniors).is_unsound_after(after, rows)
        } else {
            after.spoils_some(rows)
        }
    }

    // Number 9, by kind: the order after, and turned the same way the seniors after.
    fn create_spoils(&self, a: usize, b: usize) -> bool
        requires { (a < 64) × (b < 64) × (new_role self.now.site < 64) }
        ensures { result ≡ spoils self.now.site (create_order self.now.site.roles (new_role self.now.site) a b) }
    {
        let order = self.site.roles;
        let n = lowest_free(order.used);
        let after = order.create(n, a, b);
        let above = self.turned().create(n, b, a);
        self.is_spoilt(Ranking::of(&after, &above.juniors))
    }

    fn insert_spoils(&self, a: usize, b: usize) -> bool
        requires { (a < 64) × (b < 64) }
        ensures { result ≡ spoils self.now.site (insert_order self.now.site.roles a b) }
    {
        let after = self.site.roles.insert(a, b);
        let above = self.turned().insert(b, a);
        self.is_spoilt(Ranking::of(&after, &above.juniors))
    }

    fn cut_spoils(&self, a: usize, b: usize) -> bool
        requires { (a < 64) × (b < 64) }
        ensures { result ≡ spoils self.now.site (cut_edge self.now.site.roles a b) }
    {
        let after = self.site.roles.cut_edge(a, b);
        let above = self.turned().cut_edge(b, a);
        self.is_spoilt(Ranking::of(&after, &above.juniors))
    }

    // Kind 5: nothing, or the first refusal that holds.
    #[tactic(auto, using(policy::proofs::Outcomes::first_that_holds, crate::proofs::Laws::not_full), unfolding(crate::specs::Rules::create_rules))]
    pub fn create_outcome(&self, a: u64, b: u64) -> Result<(), Refusal>
        ensures { outcome_of result ≡ first (create_rules self.now.site a b) }
    {
        let site = &self.site;
        if site.is_unknown_pair(a, b) {
            return Err(Refusal::UnknownName);
        }
        let parent = a as usize;
        let child = b as usize;
        if !site.may_modify(HierarchyKind::CreateRole, parent, child) {
            return Err(Refusal::NotAllowed);
        }
        if !site.roles.is_senior(parent, child) {
            return Err(Refusal::NothingToDo);
        }
        if site.is_full() {
            return Err(Refusal::NoFreeRole);
        }
        if self.create_spoils(parent, child) {
            return Err(Refusal::RangeSpoilt);
        }
        Ok(())
    }

    // Kind 7.
    #[tactic(auto, using(policy::proofs::Outcomes::first_that_holds), unfolding(crate::specs::Rules::insert_rules))]
    pub fn insert_outcome(&self, a: u64, b: u64) -> Result<(), Refusal>
        ensures { outcome_of result ≡ first (insert_rules self.now.site a b) }
    {
        let site = &self.site;
        if site.is_unknown_pair(a, b) {
            return Err(Refusal::UnknownName);
        }
        let upper = a as usize;
        let lower = b as usize;
        if !site.may_modify(HierarchyKind::InsertEdge, upper, lower) {
            return Err(Refusal::NotAllowed);
        }
        if site.roles.is_comparable(upper, lower) {
            return Err(Refusal::NothingToDo);
        }
        if self.insert_spoils(upper, lower) {
            return Err(Refusal::RangeSpoilt);
        }
        Ok(())
    }

    // Kind 8.
    #[tactic(auto, using(policy::proofs::Outcomes::first_that_holds), unfolding(crate::specs::Rules::cut_rules))]
    pub fn cut_outcome(&self, a: u64, b: u64) -> Result<(), Refusal>
        ensures { outcome_of result ≡ first (cut_rules self.now.site a b) }
    {
        let site = &self.site;
        if site.is_unknown_pair(a, b) {
            return Err(Refusal::UnknownName);
        }
        let upper = a as usize;
        let lower = b as usize;
        if !site.may_modify(HierarchyKind::DeleteEdge, upper, lower) {
            return Err(Refusal::NotAllowed);
        }
        if !site.roles.is_edge(upper, lower) {
            return Err(Refusal::NothingToDo);
        }
        if self.cut_spoils(upper, lower) {
            return Err(Refusal::RangeSpoilt);
        }
        Ok(())
    }
}

// Is a an end, a needed or a barred role of the row?
fn row_names(row: &Row, a: usize) -> bool
    ensures { result ≡ row_names row.now a }
{
    let role = a as u64;
    a == row.low.0 as usize
        || a == row.high.0 as usize
        || contains(row.needed, role)
        || contains(row.barred, role)
}

fn table_names(table: &Table, a: usize) -> bool
    requires { table.now.count ≤ 64 }
    ensures { result ≡ table_names table.now a }
{
    in_use(&table.rows, table.count)
        .iter()
        .any(|row| row_names(row, a))
}

fn range_names(row: ModifyRow, a: usize) -> bool
    ensures { result ≡ (eqb a row.low.0 or eqb a row.high.0) }
{
    a == row.low.0 as usize || a == row.high.0 as usize
}

fn ranges_name(modify: &Ranges, a: usize) -> bool
    requires { modify.now.count ≤ 64 }
    ensures { result ≡ ranges_name modify.now a }
{
    in_use(&modify.rows, modify.count)
        .iter()
        .any(|row| range_names(*row, a))
}

// Number 7: does some row of the five tables name a?
pub fn is_named(tables: &Tables, modify: &Ranges, a: usize) -> bool
    requires { (tables.now.assign.count ≤ 64) × (tables.now.revoke.count ≤ 64) × (tables.now.assignp.count ≤ 64) × (tables.now.revokep.count ≤ 64) × (modify.now.count ≤ 64) }
    ensures { result ≡ named tables.now modify.now a }
{
    table_names(&tables.assign, a)
        || table_names(&tables.revoke, a)
        || table_names(&tables.assignp, a)
        || table_names(&tables.revokep, a)
        || ranges_name(modify, a)
}

// Number 8: is some member explicitly in a?
pub fn some_in(members: &Members, a: usize) -> bool
    requires { members.now.count ≤ 256 }
    ensures { result ≡ some_in members.now a }
{
    let role = a as u64;
    members.roles[..members.count]
        .iter()
        .any(|roles| contains(*roles, role))
}

fn is_occupied(p: &Policy, a: usize) -> bool
    requires { Sizes p.now }
    ensures { result ≡ (some_in p.now.people.users a or some_in p.now.permissions a) }
{
    some_in(&p.people.users, a) || some_in(&p.permissions, a)
}

// 7 or 8: does some row name a, or is someone in it?
#[tactic(auto, using(crate::proofs::Joined::joined), unfolding(crate::specs::Rules::tied))]
fn is_tied(p: &Policy, a: usize) -> bool
    requires { Sizes p.now }
    ensures { result ≡ tied_in p.now a }
{
    is_named(&p.tables, &p.modify, a) || is_occupied(p, a)
}

// The roles that cannot be deleted: some row names them (7), or someone is in them (8).
pub fn tied_roles(p: &Policy) -> u64
    requires { Sizes p.now }
    ensures { result ≡ set_of 64 (tied_in p.now) }
{
    let mut set: u64 = 0;
    for a in 0..64 {
        if is_tied(p, a) {
            set = with(set, a);
        }
    }
    set
}

// Kind 5: create a role, parent a, child b. Where sound says so, p is known to be good.
pub fn create_role(p: &Policy, sound: bool, o: u64, a: u64, b: u64) -> Result<Change, Refusal>
    requires { Sizes p.now × (sound ≡ true → Good p.now) }
    ensures { decided p.now a result ≡ create_role p.now o a b }
{
    Ground::of(p, sound, o).create_outcome(a, b)?;
    let order = p.orders.roles;
    let n = lowest_free(order.used);
    Ok(Change::Hierarchy(order.create(n, a as usize, b as usize), n as u64))
}

// Kind 6: delete role a.
pub fn delete_role(p: &Policy, o: u64, a: u64, b: u64) -> Result<Change, Refusal>
    requires { Sizes p.now }
    ensures { decided p.now a result ≡ delete_role p.now o a b }
{
    let role = a as usize;
    let named = is_named(&p.tables, &p.modify, role);
    Site::of(p, o).delete_outcome(named, is_occupied(p, role), a, b)?;
    Ok(Change::Hierarchy(p.orders.roles.remove(role), 0))
}

// Kind 7: insert an edge, a senior to b.
pub fn insert_edge(p: &Policy, sound: bool, o: u64, a: u64, b: u64) -> Result<Change, Refusal>
    requires { Sizes p.now × (sound ≡ true → Good p.now) }
    ensures { decided p.now a result ≡ insert_edge p.now o a b }
{
    Ground::of(p, sound, o).insert_outcome(a, b)?;
    Ok(Change::Hierarchy(p.orders.roles.insert(a as usize, b as usize), 0))
}

// Kind 8: delete edge (a, b).
pub fn delete_edge(p: &Policy, sound: bool, o: u64, a: u64, b: u64) -> Result<Change, Refusal>
    requires { Sizes p.now × (sound ≡ true → Good p.now) }
    ensures { decided p.now a result ≡ delete_edge p.now o a b }
{
    Ground::of(p, sound, o).cut_outcome(a, b)?;
    Ok(Change::Hierarchy(p.orders.roles.cut_edge(a as usize, b as usize), 0))
}
