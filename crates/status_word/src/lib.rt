// The word of packet 68 (document 02, Q-2): the nine conditions as zeros and ones, and their sum with the state.
#![tactic(auto)]

// M_ATO_OPERATIONAL_CONDITIONS of packet 68, SUBSET-140's Table 11: conditions 0 to 8 in their order, each 0 or 1.
#[repr(C)]
#[derive(Clone, Copy, PartialEq, Eq)]
pub struct OperationalConditions {
    pub etcs_fulfilled: u8,
    pub no_emergency_brake: u8,
    pub end_ahead: u8,
    pub last_ahead: u8,
    pub profiles_there: u8,
    pub no_inconsistency: u8,
    pub located: u8,
    pub outside_zones: u8,
    pub data_valid: u8,
}

// "O means all nine."
const ALL_NINE: OperationalConditions = OperationalConditions {
    etcs_fulfilled: 1,
    no_emergency_brake: 1,
    end_ahead: 1,
    last_ahead: 1,
    profiles_there: 1,
    no_inconsistency: 1,
    located: 1,
    outside_zones: 1,
    data_valid: 1,
};

impl OperationalConditions {
    ghost use Rattle.std.specs.Prelude.{◌≡◌};
    ghost use Rattle.status_word.specs.Word.{status_word, conditions_of_word};
    ghost use Rattle.status_word.specs.View.{conditions_view, conditions_number, all_nine};

    // State and conditions, each by its weight. By name, as the paper lists them: an array of the nine would only add its indices.
    pub fn word(self, state: u8) -> u32
        ensures { result ≡ status_word state (conditions_view self) }
    {
        (state as u32)
            + 16 * (self.etcs_fulfilled as u32)
            + 32 * (self.no_emergency_brake as u32)
            + 64 * (self.end_ahead as u32)
            + 128 * (self.last_ahead as u32)
            + 256 * (self.profiles_there as u32)
            + 512 * (self.no_inconsistency as u32)
            + 1024 * (self.located as u32)
            + 2048 * (self.outside_zones as u32)
            + 4096 * (self.data_valid as u32)
    }

    // The conditions of a word; what stands above condition 7 is condition 8.
    pub fn of_word(word: u16) -> OperationalConditions
        ensures { result ≡ conditions_of_word word }
    {
        OperationalConditions {
            etcs_fulfilled: (word % 32 / 16) as u8,
            no_emergency_brake: (word % 64 / 32) as u8,
            end_ahead: (word % 128 / 64) as u8,
            last_ahead: (word % 256 / 128) as u8,
            profiles_there: (word % 512 / 256) as u8,
            no_inconsistency: (word % 1024 / 512) as u8,
            located: (word % 2048 / 1024) as u8,
            outside_zones: (word % 4096 / 2048) as u8,
            data_valid: (word / 4096) as u8,
        }
    }

    // The conditions alone as one number, condition 0 the least significant bit: the word without the state's four bits.
    pub fn number(self) -> u32
        ensures { result ≡ conditions_number self }
    {
        self.word(0) / 16
    }

    // Each of the nine is 1.
    pub fn all_nine(self) -> bool
        ensures { result ≡ all_nine self }
    {
        self == ALL_NINE
    }
}
