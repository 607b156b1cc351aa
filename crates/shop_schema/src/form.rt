// The form that the shop's tables must have.
ghost use Rattle.std.specs.Prelude.{◌≡◌, map};
ghost use Rattle.shop_schema.specs.Form.{name_of, needs_of, need};

/// A table of the shop.
#[derive(Clone, Copy, Debug, PartialEq, Eq, Hash)]
pub enum ShopTable {
    /// The devices.
    Device,
    /// The orders.
    TokenOrder,
    /// The devices whose limit was raised.
    Raised,
    /// The changes of a price.
    PriceChange,
}

// What a column holds.
#[derive(Clone, Copy, Debug, PartialEq, Eq, Hash)]
pub(crate) enum Holds {
    // A text.
    Words,
    // A whole number.
    Whole,
    // Bytes.
    Bare,
}

// A column that the shop's statements name.
#[derive(Clone, Copy, Debug, PartialEq, Eq, Hash)]
pub(crate) struct Need {
    pub(crate) name: &'static str,
    pub(crate) holds: Holds,
}

const DEVICE: [Need; 11] = [
    Need {
        name: "serial",
        holds: Holds::Words,
    },
    Need {
        name: "secret",
        holds: Holds::Bare,
    },
    Need {
        name: "start",
        holds: Holds::Whole,
    },
    Need {
        name: "divider",
        holds: Holds::Whole,
    },
    Need {
        name: "form",
        holds: Holds::Whole,
    },
    Need {
        name: "price",
        holds: Holds::Whole,
    },
    Need {
        name: "total",
        holds: Holds::Whole,
    },
    Need {
        name: "paid",
        holds: Holds::Whole,
    },
    Need {
        name: "rest",
        holds: Holds::Whole,
    },
    Need {
        name: "last",
        holds: Holds::Whole,
    },
    Need {
        name: "closed",
        holds: Holds::Whole,
    },
];

const TOKEN_ORDER: [Need; 8] = [
    Need {
        name: "id",
        holds: Holds::Words,
    },
    Need {
        name: "serial",
        holds: Holds::Words,
    },
    Need {
        name: "ask",
        holds: Holds::Whole,
    },
    Need {
        name: "asked",
        holds: Holds::Whole,
    },
    Need {
        name: "kind",
        holds: Holds::Whole,
    },
    Need {
        name: "count",
        holds: Holds::Whole,
    },
    Need {
        name: "value",
        holds: Holds::Whole,
    },
    Need {
        name: "token",
        holds: Holds::Whole,
    },
];

const RAISED: [Need; 1] = [Need {
    name: "serial",
    holds: Holds::Words,
}];

const PRICE_CHANGE: [Need; 3] = [
    Need {
        name: "serial",
        holds: Holds::Words,
    },
    Need {
        name: "from_count",
        holds: Holds::Whole,
    },
    Need {
        name: "price",
        holds: Holds::Whole,
    },
];

impl ShopTable {
    /// The name of the table.
    pub fn name(self) -> &'static str
        ensures { result.now ≡ name_of self }
    {
        match self {
            ShopTable::Device => "device",
            ShopTable::TokenOrder => "token_order",
            ShopTable::Raised => "raised",
            ShopTable::PriceChange => "price_change",
        }
    }

    // The columns that the shop's statements name, in the order in which they are looked at.
    pub(crate) fn needs(self) -> &'static [Need]
        ensures { map need result.now ≡ needs_of self }
    {
        match self {
            ShopTable::Device => &DEVICE,
            ShopTable::TokenOrder => &TOKEN_ORDER,
            ShopTable::Raised => &RAISED,
            ShopTable::PriceChange => &PRICE_CHANGE,
        }
    }
}
