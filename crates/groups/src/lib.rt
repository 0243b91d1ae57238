// Groups {M, C} of devices: their bound, what is a group, and which devices it has.
#![tactic(auto)]

ghost use Rattle.std.specs.Prelude.{◌≡◌, ◌-◌, ◌^◌};
ghost use Rattle.groups.specs.Groups.{is_group, in_group};

// 2^(12-M): C is below it, and the upper half of {M, C} is {M-1, C + 2^(12-M)}.
pub fn bound(m: u16) -> u16
    ensures { result ≡ 2 ^ (12 - m) }
{
    if m < 13 { 4096 >> m } else { 1 }
}

// Whether {m, c} is a group. The two stay numbers of their own, as C lends any two and a round holds them.
pub fn is_group(m: u16, c: u16) -> bool
    ensures { result ≡ is_group m c }
{
    m <= 12 && c < bound(m)
}

// Whether the device with this address is in the group {m, c}.
pub fn in_group(m: u16, c: u16, address: u16) -> bool
    ensures { result ≡ in_group m c address }
{
    address % bound(m) == c
}
