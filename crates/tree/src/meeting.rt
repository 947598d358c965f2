ghost use Rattle.std.specs.Prelude.{◌≡◌, ◌<◌, length, OnOk, OnErr};
ghost use Rattle.octets.specs.Runs.{zeros};
ghost use Rattle.checking.specs.Walk.{meet};
ghost use Rattle.tree.specs.Work.{said, AllMet};

use octets::places::PageNo;

// What a page is to the store. The work area has it as its number, `role as u16`: a `From` would only hold that cast.
#[derive(Clone, Copy, Debug, PartialEq, Eq)]
pub enum Role {
    Leaf = 1,
    Inner = 2,
    Overflow = 3,
    Free = 4,
    Header = 5,
}

// Why a walk stops: a page is none of the image, was met before, or is not what it should be.
#[derive(Clone, Copy, Debug, PartialEq, Eq)]
pub struct Damaged;

// Marks a page's role, unless it is no page of the image or has a role already. `roles` has an entry for each page, which is the
// role's number. (The role is a number, since the clause `met` holds for each number: `Role` has only five.)
#[tactic(auto, unfolding(checking::specs::Walk::meet, checking::specs::Steps::when, model::specs::Accept::between))]
pub fn meet(roles: &mut [u16], p: PageNo, role: u16) -> Result<(), Damaged>
    ensures met { said result roles.new ≡ meet (length roles.old) role p.0 roles.old }
    ensures inside { OnOk result (p.0 < length roles.old) }
    ensures err { OnErr result (roles.new ≡ roles.old) }
{
    let i = usize::from(p.0);
    if i == 0 || roles.len() <= i || roles[i] != 0 {
        return Err(Damaged);
    }
    roles[i] = role;
    Ok(())
}

// Makes all entries zero.
#[tactic(auto, unfolding(octets::specs::Runs::zeros))]
pub fn clear(roles: &mut [u16])
    ensures { roles.new ≡ zeros (length roles.old) }
{
    roles.fill(0);
}

// Whether each entry has a role.
pub fn all_met(roles: &[u16]) -> bool
    ensures { result ≡ AllMet (length roles.now) roles.now }
{
    roles.iter().all(|role| *role != 0)
}
