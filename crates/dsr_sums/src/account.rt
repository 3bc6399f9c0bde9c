//! Accounts: what numbers are added up under.
ghost use Rattle.std.specs.Prelude.{◌≡◌, [], IfOk, OnOk};
ghost use Rattle.std.specs.Str.{bytes_eq};

use dsr_cells::{NoMemory, Text};
use std::alloc::Global;
use std::marker::Model;

/// What numbers are added up under: a currency; a territory and a use type in a currency; or a party in a currency. The
/// texts that an account has not are empty.
#[derive(PartialEq, Eq, PartialOrd, Ord, Hash, Drop)]
pub struct Account {
    /// The name of the party.
    pub party: Text,
    /// The territory.
    pub territory: Text,
    /// The use type.
    pub use_type: Text,
    /// The currency.
    pub currency: Text,
}

/// The texts of an account, which it borrows. Contracts see it as the account.
#[derive(Drop)]
pub struct AccountRef<'a> {
    /// The name of the party.
    pub party: &'a str,
    /// The territory.
    pub territory: &'a str,
    /// The use type.
    pub use_type: &'a str,
    /// The currency.
    pub currency: &'a str,
}

impl<'a> Model for AccountRef<'a> {
    ghost use Rattle.dsr_sums.specs.declared.account.Account.{Account};

    ghost Value = { Account };

    ghost view = { λ a. record {
      party = a.party.now;
      territory = a.territory.now;
      use_type = a.use_type.now;
      currency = a.currency.now;
    } };
}

impl<'a> AccountRef<'a> {
    ghost use Rattle.dsr_sums.specs.meaning.Accounts.{currency_account, market_account, party_account};

    /// The account of a currency.
    #[inline(always)]
    pub(crate) fn of_currency(currency: &'a str) -> AccountRef<'a>
        ensures { result ≡ currency_account currency.now }
    {
        AccountRef {
            party: "",
            territory: "",
            use_type: "",
            currency,
        }
    }

    /// The account of a territory and a use type in a currency.
    #[inline(always)]
    pub(crate) fn of_market(
        territory: &'a str,
        use_type: &'a str,
        currency: &'a str,
    ) -> AccountRef<'a>
        ensures { result ≡ market_account territory.now use_type.now currency.now }
    {
        AccountRef {
            party: "",
            territory,
            use_type,
            currency,
        }
    }

    /// The account of a party in a currency.
    #[inline(always)]
    pub(crate) fn of_party(party: &'a str, currency: &'a str) -> AccountRef<'a>
        ensures { result ≡ party_account party.now currency.now }
    {
        AccountRef {
            party,
            territory: "",
            use_type: "",
            currency,
        }
    }
}

/// Whether a text is this one. An empty one is known by its length.
#[inline(always)]
fn is_text(text: &Text, other: &str) -> bool
    ensures { result ≡ bytes_eq text.now other.now }
{
    if other.is_empty() {
        return text.as_str().is_empty();
    }
    text.as_str() == other
}

impl Account {
    ghost use Rattle.dsr_sums.specs.meaning.Accounts.{account_eq, currency_account};

    /// An account without texts, to be written over.
    pub(crate) fn blank() -> Account
        ensures { result ≡ currency_account [] }
    {
        Account {
            party: Text::default(),
            territory: Text::default(),
            use_type: Text::default(),
            currency: Text::default(),
        }
    }

    /// An account with these texts.
    pub(crate) fn copy_of(alloc: Global, account: &AccountRef<'_>) -> Result<Account, NoMemory>
        ensures { IfOk result (λ own. own ≡ account.now) }
    {
        Ok(Account {
            party: Text::copy_of(alloc, account.party)?,
            territory: Text::copy_of(alloc, account.territory)?,
            use_type: Text::copy_of(alloc, account.use_type)?,
            currency: Text::copy_of(alloc, account.currency)?,
        })
    }

    /// A second account with the same texts.
    pub(crate) fn copy(&self, alloc: Global) -> Result<Account, NoMemory>
        ensures { IfOk result (λ account. account ≡ self.now) }
    {
        Ok(Account {
            party: self.party.copy(alloc)?,
            territory: self.territory.copy(alloc)?,
            use_type: self.use_type.copy(alloc)?,
            currency: self.currency.copy(alloc)?,
        })
    }

    /// Writes another account over this one.
    #[inline(always)]
    pub(crate) fn assign(&mut self, alloc: Global, account: &AccountRef<'_>) -> Result<(), NoMemory>
        ensures { OnOk result (self.new ≡ account.now) }
    {
        self.party.assign(alloc, account.party)?;
        self.territory.assign(alloc, account.territory)?;
        self.use_type.assign(alloc, account.use_type)?;
        self.currency.assign(alloc, account.currency)
    }

    /// Whether it has these texts.
    #[inline(always)]
    pub(crate) fn is(&self, account: &AccountRef<'_>) -> bool
        ensures { result ≡ account_eq self.now account.now }
    {
        is_text(&self.party, account.party)
            && is_text(&self.territory, account.territory)
            && is_text(&self.use_type, account.use_type)
            && is_text(&self.currency, account.currency)
    }
}
