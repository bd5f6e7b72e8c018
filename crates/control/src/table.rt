// The first bytes: the group of each of the 256, and the followers it announces.
use crate::first::Group;
use crate::first::Group::*;
use crate::follower::Follower::*;
use crate::follower::Followers;
use crate::follower::Followers::*;

#[derive(Clone, Copy, Debug, PartialEq, Eq)]
pub struct Entry {
    pub group: Option<Group>,
    pub followers: Followers,
}

// At one place of the program, so that a caller can index it by value: of so large a constant the checker refuses that.
pub static TABLE: [Entry; 256] = ENTRIES;

#[rattlefmt::skip]
const ENTRIES: [Entry; 256] = [
    Entry { group: Some(Wr2), followers: Zero }, // 00
    Entry { group: Some(Wr0), followers: Zero }, // 01
    Entry { group: Some(Wr0), followers: Zero }, // 02
    Entry { group: Some(Wr0), followers: Zero }, // 03
    Entry { group: Some(Wr1), followers: Zero }, // 04
    Entry { group: Some(Wr0), followers: Zero }, // 05
    Entry { group: Some(Wr0), followers: Zero }, // 06
    Entry { group: Some(Wr0), followers: Zero }, // 07
    Entry { group: Some(Wr2), followers: Zero }, // 08
    Entry { group: Some(Wr0), followers: One(ALow) }, // 09
    Entry { group: Some(Wr0), followers: One(ALow) }, // 0A
    Entry { group: Some(Wr0), followers: One(ALow) }, // 0B
    Entry { group: Some(Wr1), followers: Zero }, // 0C
    Entry { group: Some(Wr0), followers: One(ALow) }, // 0D
    Entry { group: Some(Wr0), followers: One(ALow) }, // 0E
    Entry { group: Some(Wr0), followers: One(ALow) }, // 0F
    Entry { group: Some(Wr2), followers: Zero }, // 10
    Entry { group: Some(Wr0), followers: One(AHigh) }, // 11
    Entry { group: Some(Wr0), followers: One(AHigh) }, // 12
    Entry { group: Some(Wr0), followers: One(AHigh) }, // 13
    Entry { group: Some(Wr1), followers: Zero }, // 14
    Entry { group: Some(Wr0), followers: One(AHigh) }, // 15
    Entry { group: Some(Wr0), followers: One(AHigh) }, // 16
    Entry { group: Some(Wr0), followers: One(AHigh) }, // 17
    Entry { group: Some(Wr2), followers: Zero }, // 18
    Entry { group: Some(Wr0), followers: Two(ALow, AHigh) }, // 19
    Entry { group: Some(Wr0), followers: Two(ALow, AHigh) }, // 1A
    Entry { group: Some(Wr0), followers: Two(ALow, AHigh) }, // 1B
    Entry { group: Some(Wr1), followers: Zero }, // 1C
    Entry { group: Some(Wr0), followers: Two(ALow, AHigh) }, // 1D
    Entry { group: Some(Wr0), followers: Two(ALow, AHigh) }, // 1E
    Entry { group: Some(Wr0), followers: Two(ALow, AHigh) }, // 1F
    Entry { group: Some(Wr2), followers: Zero }, // 20
    Entry { group: Some(Wr0), followers: One(LengthLow) }, // 21
    Entry { group: Some(Wr0), followers: One(LengthLow) }, // 22
    Entry { group: Some(Wr0), followers: One(LengthLow) }, // 23
    Entry { group: Some(Wr1), followers: Zero }, // 24
    Entry { group: Some(Wr0), followers: One(LengthLow) }, // 25
    Entry { group: Some(Wr0), followers: One(LengthLow) }, // 26
    Entry { group: Some(Wr0), followers: One(LengthLow) }, // 27
    Entry { group: Some(Wr2), followers: Zero }, // 28
    Entry { group: Some(Wr0), followers: Two(ALow, LengthLow) }, // 29
    Entry { group: Some(Wr0), followers: Two(ALow, LengthLow) }, // 2A
    Entry { group: Some(Wr0), followers: Two(ALow, LengthLow) }, // 2B
    Entry { group: Some(Wr1), followers: Zero }, // 2C
    Entry { group: Some(Wr0), followers: Two(ALow, LengthLow) }, // 2D
    Entry { group: Some(Wr0), followers: Two(ALow, LengthLow) }, // 2E
    Entry { group: Some(Wr0), followers: Two(ALow, LengthLow) }, // 2F
    Entry { group: Some(Wr2), followers: Zero }, // 30
    Entry { group: Some(Wr0), followers: Two(AHigh, LengthLow) }, // 31
    Entry { group: Some(Wr0), followers: Two(AHigh, LengthLow) }, // 32
    Entry { group: Some(Wr0), followers: Two(AHigh, LengthLow) }, // 33
    Entry { group: Some(Wr1), followers: Zero }, // 34
    Entry { group: Some(Wr0), followers: Two(AHigh, LengthLow) }, // 35
    Entry { group: Some(Wr0), followers: Two(AHigh, LengthLow) }, // 36
    Entry { group: Some(Wr0), followers: Two(AHigh, LengthLow) }, // 37
    Entry { group: Some(Wr2), followers: Zero }, // 38
    Entry { group: Some(Wr0), followers: Three(ALow, AHigh, LengthLow) }, // 39
    Entry { group: Some(Wr0), followers: Three(ALow, AHigh, LengthLow) }, // 3A
    Entry { group: Some(Wr0), followers: Three(ALow, AHigh, LengthLow) }, // 3B
    Entry { group: Some(Wr1), followers: Zero }, // 3C
    Entry { group: Some(Wr0), followers: Three(ALow, AHigh, LengthLow) }, // 3D
    Entry { group: Some(Wr0), followers: Three(ALow, AHigh, LengthLow) }, // 3E
    Entry { group: Some(Wr0), followers: Three(ALow, AHigh, LengthLow) }, // 3F
    Entry { group: Some(Wr2), followers: One(BTiming) }, // 40
    Entry { group: Some(Wr0), followers: One(LengthHigh) }, // 41
    Entry { group: Some(Wr0), followers: One(LengthHigh) }, // 42
    Entry { group: Some(Wr0), followers: One(LengthHigh) }, // 43
    Entry { group: Some(Wr1), followers: One(ATiming) }, // 44
    Entry { group: Some(Wr0), followers: One(LengthHigh) }, // 45
    Entry { group: Some(Wr0), followers: One(LengthHigh) }, // 46
    Entry { group: Some(Wr0), followers: One(LengthHigh) }, // 47
    Entry { group: Some(Wr2), followers: One(BTiming) }, // 48
    Entry { group: Some(Wr0), followers: Two(ALow, LengthHigh) }, // 49
    Entry { group: Some(Wr0), followers: Two(ALow, LengthHigh) }, // 4A
    Entry { group: Some(Wr0), followers: Two(ALow, LengthHigh) }, // 4B
    Entry { group: Some(Wr1), followers: One(ATiming) }, // 4C
    Entry { group: Some(Wr0), followers: Two(ALow, LengthHigh) }, // 4D
    Entry { group: Some(Wr0), followers: Two(ALow, LengthHigh) }, // 4E
    Entry { group: Some(Wr0), followers: Two(ALow, LengthHigh) }, // 4F
    Entry { group: Some(Wr2), followers: One(BTiming) }, // 50
    Entry { group: Some(Wr0), followers: Two(AHigh, LengthHigh) }, // 51
    Entry { group: Some(Wr0), followers: Two(AHigh, LengthHigh) }, // 52
    Entry { group: Some(Wr0), followers: Two(AHigh, LengthHigh) }, // 53
    Entry { group: Some(Wr1), followers: One(ATiming) }, // 54
    Entry { group: Some(Wr0), followers: Two(AHigh, LengthHigh) }, // 55
    Entry { group: Some(Wr0), followers: Two(AHigh, LengthHigh) }, // 56
    Entry { group: Some(Wr0), followers: Two(AHigh, LengthHigh) }, // 57
    Entry { group: Some(Wr2), followers: One(BTiming) }, // 58
    Entry { group: Some(Wr0), followers: Three(ALow, AHigh, LengthHigh) }, // 59
    Entry { group: Some(Wr0), followers: Three(ALow, AHigh, LengthHigh) }, // 5A
    Entry { group: Some(Wr0), followers: Three(ALow, AHigh, LengthHigh) }, // 5B
    Entry { group: Some(Wr1), followers: One(ATiming) }, // 5C
    Entry { group: Some(Wr0), followers: Three(ALow, AHigh, LengthHigh) }, // 5D
    Entry { group: Some(Wr0), followers: Three(ALow, AHigh, LengthHigh) }, // 5E
    Entry { group: Some(Wr0), followers: Three(ALow, AHigh, LengthHigh) }, // 5F
    Entry { group: Some(Wr2), followers: One(BTiming) }, // 60
    Entry { group: Some(Wr0), followers: Two(LengthLow, LengthHigh) }, // 61
    Entry { group: Some(Wr0), followers: Two(LengthLow, LengthHigh) }, // 62
    Entry { group: Some(Wr0), followers: Two(LengthLow, LengthHigh) }, // 63
    Entry { group: Some(Wr1), followers: One(ATiming) }, // 64
    Entry { group: Some(Wr0), followers: Two(LengthLow, LengthHigh) }, // 65
    Entry { group: Some(Wr0), followers: Two(LengthLow, LengthHigh) }, // 66
    Entry { group: Some(Wr0), followers: Two(LengthLow, LengthHigh) }, // 67
    Entry { group: Some(Wr2), followers: One(BTiming) }, // 68
    Entry { group: Some(Wr0), followers: Three(ALow, LengthLow, LengthHigh) }, // 69
    Entry { group: Some(Wr0), followers: Three(ALow, LengthLow, LengthHigh) }, // 6A
    Entry { group: Some(Wr0), followers: Three(ALow, LengthLow, LengthHigh) }, // 6B
    Entry { group: Some(Wr1), followers: One(ATiming) }, // 6C
    Entry { group: Some(Wr0), followers: Three(ALow, LengthLow, LengthHigh) }, // 6D
    Entry { group: Some(Wr0), followers: Three(ALow, LengthLow, LengthHigh) }, // 6E
    Entry { group: Some(Wr0), followers: Three(ALow, LengthLow, LengthHigh) }, // 6F
    Entry { group: Some(Wr2), followers: One(BTiming) }, // 70
    Entry { group: Some(Wr0), followers: Three(AHigh, LengthLow, LengthHigh) }, // 71
    Entry { group: Some(Wr0), followers: Three(AHigh, LengthLow, LengthHigh) }, // 72
    Entry { group: Some(Wr0), followers: Three(AHigh, LengthLow, LengthHigh) }, // 73
    Entry { group: Some(Wr1), followers: One(ATiming) }, // 74
    Entry { group: Some(Wr0), followers: Three(AHigh, LengthLow, LengthHigh) }, // 75
    Entry { group: Some(Wr0), followers: Three(AHigh, LengthLow, LengthHigh) }, // 76
    Entry { group: Some(Wr0), followers: Three(AHigh, LengthLow, LengthHigh) }, // 77
    Entry { group: Some(Wr2), followers: One(BTiming) }, // 78
    Entry { group: Some(Wr0), followers: Four(ALow, AHigh, LengthLow, LengthHigh) }, // 79
    Entry { group: Some(Wr0), followers: Four(ALow, AHigh, LengthLow, LengthHigh) }, // 7A
    Entry { group: Some(Wr0), followers: Four(ALow, AHigh, LengthLow, LengthHigh) }, // 7B
    Entry { group: Some(Wr1), followers: One(ATiming) }, // 7C
    Entry { group: Some(Wr0), followers: Four(ALow, AHigh, LengthLow, LengthHigh) }, // 7D
    Entry { group: Some(Wr0), followers: Four(ALow, AHigh, LengthLow, LengthHigh) }, // 7E
    Entry { group: Some(Wr0), followers: Four(ALow, AHigh, LengthLow, LengthHigh) }, // 7F
    Entry { group: Some(Wr3), followers: Zero }, // 80
    Entry { group: Some(Wr4), followers: Zero }, // 81
    Entry { group: Some(Wr5), followers: Zero }, // 82
    Entry { group: Some(Wr6), followers: Zero }, // 83
    Entry { group: Some(Wr3), followers: Zero }, // 84
    Entry { group: Some(Wr4), followers: One(BLow) }, // 85
    Entry { group: None, followers: Zero }, // 86
    Entry { group: Some(Wr6), followers: Zero }, // 87
    Entry { group: Some(Wr3), followers: One(Mask) }, // 88
    Entry { group: Some(Wr4), followers: One(BHigh) }, // 89
    Entry { group: Some(Wr5), followers: Zero }, // 8A
    Entry { group: Some(Wr6), followers: Zero }, // 8B
    Entry { group: Some(Wr3), followers: One(Mask) }, // 8C
    Entry { group: Some(Wr4), followers: Two(BLow, BHigh) }, // 8D
    Entry { group: None, followers: Zero }, // 8E
    Entry { group: None, followers: Zero }, // 8F
    Entry { group: Some(Wr3), followers: One(Match) }, // 90
    Entry { group: Some(Wr4), followers: One(Interrupt) }, // 91
    Entry { group: Some(Wr5), followers: Zero }, // 92
    Entry { group: None, followers: Zero }, // 93
    Entry { group: Some(Wr3), followers: One(Match) }, // 94
    Entry { group: Some(Wr4), followers: Two(BLow, Interrupt) }, // 95
    Entry { group: None, followers: Zero }, // 96
    Entry { group: None, followers: Zero }, // 97
    Entry { group: Some(Wr3), followers: Two(Mask, Match) }, // 98
    Entry { group: Some(Wr4), followers: Two(BHigh, Interrupt) }, // 99
    Entry { group: Some(Wr5), followers: Zero }, // 9A
    Entry { group: None, followers: Zero }, // 9B
    Entry { group: Some(Wr3), followers: Two(Mask, Match) }, // 9C
    Entry { group: Some(Wr4), followers: Three(BLow, BHigh, Interrupt) }, // 9D
    Entry { group: None, followers: Zero }, // 9E
    Entry { group: None, followers: Zero }, // 9F
    Entry { group: Some(Wr3), followers: Zero }, // A0
    Entry { group: Some(Wr4), followers: Zero }, // A1
    Entry { group: Some(Wr5), followers: Zero }, // A2
    Entry { group: Some(Wr6), followers: Zero }, // A3
    Entry { group: Some(Wr3), followers: Zero }, // A4
    Entry { group: Some(Wr4), followers: One(BLow) }, // A5
    Entry { group: None, followers: Zero }, // A6
    Entry { group: Some(Wr6), followers: Zero }, // A7
    Entry { group: Some(Wr3), followers: One(Mask) }, // A8
    Entry { group: Some(Wr4), followers: One(BHigh) }, // A9
    Entry { group: Some(Wr5), followers: Zero }, // AA
    Entry { group: Some(Wr6), followers: Zero }, // AB
    Entry { group: Some(Wr3), followers: One(Mask) }, // AC
    Entry { group: Some(Wr4), followers: Two(BLow, BHigh) }, // AD
    Entry { group: None, followers: Zero }, // AE
    Entry { group: Some(Wr6), followers: Zero }, // AF
    Entry { group: Some(Wr3), followers: One(Match) }, // B0
    Entry { group: Some(Wr4), followers: One(Interrupt) }, // B1
    Entry { group: Some(Wr5), followers: Zero }, // B2
    Entry { group: Some(Wr6), followers: Zero }, // B3
    Entry { group: Some(Wr3), followers: One(Match) }, // B4
    Entry { group: Some(Wr4), followers: Two(BLow, Interrupt) }, // B5
    Entry { group: None, followers: Zero }, // B6
    Entry { group: None, followers: Zero }, // B7
    Entry { group: Some(Wr3), followers: Two(Mask, Match) }, // B8
    Entry { group: Some(Wr4), followers: Two(BHigh, Interrupt) }, // B9
    Entry { group: Some(Wr5), followers: Zero }, // BA
    Entry { group: Some(Wr6), followers: One(ReadMask) }, // BB
    Entry { group: Some(Wr3), followers: Two(Mask, Match) }, // BC
    Entry { group: Some(Wr4), followers: Three(BLow, BHigh, Interrupt) }, // BD
    Entry { group: None, followers: Zero }, // BE
    Entry { group: Some(Wr6), followers: Zero }, // BF
    Entry { group: Some(Wr3), followers: Zero }, // C0
    Entry { group: Some(Wr4), followers: Zero }, // C1
    Entry { group: None, followers: Zero }, // C2
    Entry { group: Some(Wr6), followers: Zero }, // C3
    Entry { group: Some(Wr3), followers: Zero }, // C4
    Entry { group: Some(Wr4), followers: One(BLow) }, // C5
    Entry { group: None, followers: Zero }, // C6
    Entry { group: Some(Wr6), followers: Zero }, // C7
    Entry { group: Some(Wr3), followers: One(Mask) }, // C8
    Entry { group: Some(Wr4), followers: One(BHigh) }, // C9
    Entry { group: None, followers: Zero }, // CA
    Entry { group: Some(Wr6), followers: Zero }, // CB
    Entry { group: Some(Wr3), followers: One(Mask) }, // CC
    Entry { group: Some(Wr4), followers: Two(BLow, BHigh) }, // CD
    Entry { group: None, followers: Zero }, // CE
    Entry { group: Some(Wr6), followers: Zero }, // CF
    Entry { group: Some(Wr3), followers: One(Match) }, // D0
    Entry { group: Some(Wr4), followers: One(Interrupt) }, // D1
    Entry { group: None, followers: Zero }, // D2
    Entry { group: Some(Wr6), followers: Zero }, // D3
    Entry { group: Some(Wr3), followers: One(Match) }, // D4
    Entry { group: Some(Wr4), followers: Two(BLow, Interrupt) }, // D5
    Entry { group: None, followers: Zero }, // D6
    Entry { group: None, followers: Zero }, // D7
    Entry { group: Some(Wr3), followers: Two(Mask, Match) }, // D8
    Entry { group: Some(Wr4), followers: Two(BHigh, Interrupt) }, // D9
    Entry { group: None, followers: Zero }, // DA
    Entry { group: None, followers: Zero }, // DB
    Entry { group: Some(Wr3), followers: Two(Mask, Match) }, // DC
    Entry { group: Some(Wr4), followers: Three(BLow, BHigh, Interrupt) }, // DD
    Entry { group: None, followers: Zero }, // DE
    Entry { group: None, followers: Zero }, // DF
    Entry { group: Some(Wr3), followers: Zero }, // E0
    Entry { group: Some(Wr4), followers: Zero }, // E1
    Entry { group: None, followers: Zero }, // E2
    Entry { group: None, followers: Zero }, // E3
    Entry { group: Some(Wr3), followers: Zero }, // E4
    Entry { group: Some(Wr4), followers: One(BLow) }, // E5
    Entry { group: None, followers: Zero }, // E6
    Entry { group: None, followers: Zero }, // E7
    Entry { group: Some(Wr3), followers: One(Mask) }, // E8
    Entry { group: Some(Wr4), followers: One(BHigh) }, // E9
    Entry { group: None, followers: Zero }, // EA
    Entry { group: None, followers: Zero }, // EB
    Entry { group: Some(Wr3), followers: One(Mask) }, // EC
    Entry { group: Some(Wr4), followers: Two(BLow, BHigh) }, // ED
    Entry { group: None, followers: Zero }, // EE
    Entry { group: None, followers: Zero }, // EF
    Entry { group: Some(Wr3), followers: One(Match) }, // F0
    Entry { group: Some(Wr4), followers: One(Interrupt) }, // F1
    Entry { group: None, followers: Zero }, // F2
    Entry { group: None, followers: Zero }, // F3
    Entry { group: Some(Wr3), followers: One(Match) }, // F4
    Entry { group: Some(Wr4), followers: Two(BLow, Interrupt) }, // F5
    Entry { group: None, followers: Zero }, // F6
    Entry { group: None, followers: Zero }, // F7
    Entry { group: Some(Wr3), followers: Two(Mask, Match) }, // F8
    Entry { group: Some(Wr4), followers: Two(BHigh, Interrupt) }, // F9
    Entry { group: None, followers: Zero }, // FA
    Entry { group: None, followers: Zero }, // FB
    Entry { group: Some(Wr3), followers: Two(Mask, Match) }, // FC
    Entry { group: Some(Wr4), followers: Three(BLow, BHigh, Interrupt) }, // FD
    Entry { group: None, followers: Zero }, // FE
    Entry { group: None, followers: Zero }, // FF
];
