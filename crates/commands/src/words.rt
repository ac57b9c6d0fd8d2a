// The words of kinds and states, as tables, spellings and answers have them.

ghost use Rattle.std.specs.Prelude.{◌≡◌};
ghost use Rattle.commands.specs.Words.{bin_kind_word, bin_kind_of, order_class_word, order_state_word, order_state_of, card_kind_word, card_kind_of, lot_status_word, lot_status_of};

use crate::{BinKind, CardKind, LotStatus, OrderClass, OrderState};

impl BinKind {
    /// `STORE` or `HOLD`.
    pub fn word(self) -> &'static str
        ensures { result.now ≡ bin_kind_word self }
    {
        match self {
            BinKind::Store => "STORE",
            BinKind::Hold => "HOLD",
        }
    }

    /// The kind with this word, if one has it.
    pub fn from_word(word: &[u8]) -> Option<BinKind>
        ensures { result ≡ bin_kind_of word.now }
    {
        if word == BinKind::Store.word().as_bytes() {
            return Some(BinKind::Store);
        }
        if word == BinKind::Hold.word().as_bytes() {
            return Some(BinKind::Hold);
        }
        None
    }
}

impl OrderClass {
    /// `NORMAL` or `URGENT`.
    pub fn word(self) -> &'static str
        ensures { result.now ≡ order_class_word self }
    {
        match self {
            OrderClass::Normal => "NORMAL",
            OrderClass::Urgent => "URGENT",
        }
    }
}

impl OrderState {
    /// `OPEN`, `DONE` or `CANCELLED`.
    pub fn word(self) -> &'static str
        ensures { result.now ≡ order_state_word self }
    {
        match self {
            OrderState::Open => "OPEN",
            OrderState::Done => "DONE",
            OrderState::Cancelled => "CANCELLED",
        }
    }

    /// The state with this word, if one has it.
    pub fn from_word(word: &[u8]) -> Option<OrderState>
        ensures { result ≡ order_state_of word.now }
    {
        if word == OrderState::Open.word().as_bytes() {
            return Some(OrderState::Open);
        }
        if word == OrderState::Done.word().as_bytes() {
            return Some(OrderState::Done);
        }
        if word == OrderState::Cancelled.word().as_bytes() {
            return Some(OrderState::Cancelled);
        }
        None
    }
}

impl CardKind {
    /// `RECEIPT`, `WRITEON`, `WRITEOFF` or `SHIPMENT`.
    pub fn word(self) -> &'static str
        ensures { result.now ≡ card_kind_word self }
    {
        match self {
            CardKind::Receipt => "RECEIPT",
            CardKind::WriteOn => "WRITEON",
            CardKind::WriteOff => "WRITEOFF",
            CardKind::Shipment => "SHIPMENT",
        }
    }

    /// The kind with this word, if one has it.
    pub fn from_word(word: &[u8]) -> Option<CardKind>
        ensures { result ≡ card_kind_of word.now }
    {
        if word == CardKind::Receipt.word().as_bytes() {
            return Some(CardKind::Receipt);
        }
        if word == CardKind::WriteOn.word().as_bytes() {
            return Some(CardKind::WriteOn);
        }
        if word == CardKind::WriteOff.word().as_bytes() {
            return Some(CardKind::WriteOff);
        }
        if word == CardKind::Shipment.word().as_bytes() {
            return Some(CardKind::Shipment);
        }
        None
    }
}

impl LotStatus {
    /// `RECALLED`, `HELD`, `EXPIRED`, `SHORTDATED` or `FREE`.
    pub fn word(self) -> &'static str
        ensures { result.now ≡ lot_status_word self }
    {
        match self {
            LotStatus::Recalled => "RECALLED",
            LotStatus::Held => "HELD",
            LotStatus::Expired => "EXPIRED",
            LotStatus::ShortDated => "SHORTDATED",
            LotStatus::Free => "FREE",
        }
    }

    /// The status with this word, if one has it.
    pub fn from_word(word: &[u8]) -> Option<LotStatus>
        ensures { result ≡ lot_status_of word.now }
    {
        if word == LotStatus::Recalled.word().as_bytes() {
            return Some(LotStatus::Recalled);
        }
        if word == LotStatus::Held.word().as_bytes() {
            return Some(LotStatus::Held);
        }
        if word == LotStatus::Expired.word().as_bytes() {
            return Some(LotStatus::Expired);
        }
        if word == LotStatus::ShortDated.word().as_bytes() {
            return Some(LotStatus::ShortDated);
        }
        if word == LotStatus::Free.word().as_bytes() {
            return Some(LotStatus::Free);
        }
        None
    }
}
