ghost use Rattle.f_value.specs.Laws.{BeginsWithOne, GoesOnByProducts, GoesBackByQuotients};

/// Laws: `**` to a number that isn't negative is a repeated product, from 1 on, the violation of such a product included.
pub fn powers_are_repeated_products()
    ensures zero { BeginsWithOne }
    ensures next { GoesOnByProducts }
{}

/// A law: `**` to a negative number, of 0, of 1, of -1 and of all others (10.1.5.2.2).
pub fn negative_powers_are_quotients()
    ensures { GoesBackByQuotients }
{}
