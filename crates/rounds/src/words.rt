// Request words.

ghost use Rattle.std.specs.Prelude.{◌≡◌, true, ◌≤◌};
ghost use Rattle.groups.specs.Groups.{is_group, group_word};

// F_code 9, the General_Event_Request.
pub(crate) const GENERAL_EVENT: u16 = 36864;

// F_code 14, the Single_Event_Request; what stands below it has F_code 13, the Group_Event_Request.
const SINGLE_EVENT: u16 = 57344;

// The request for the group {m, c}, m at most 11. Over F_code 13 the m - 1 ones and the zero are 2^12 less 2^(13-m); for
// m = 0 the remainder leaves nothing to take from F_code 14.
#[tactic(auto, using(crate::proofs::Steps::c_low, crate::proofs::Steps::word_sum))]
pub(crate) fn group_word(m: u16, c: u16) -> u16
    requires { (is_group m c ≡ true) × (m ≤ 11) }
    ensures { result ≡ group_word m c }
{
    SINGLE_EVENT - (8192 >> m) % 8192 + c
}
