//! Symbols, fields and data types have names (docs/FORMAT.md, "Finding").
#![tactic(auto)]

ghost use Rattle.std.specs.Prelude.{◌≡◌};
ghost use Rattle.named.specs.Kinds.{symbol_places, field_places, symbol_told, field_told, type_told, symbol_shortest, field_shortest};

use crate::Named;
use data_type::AdsDataTypeInfo;
use field::AdsFieldInfo;
use name_order::NamePlaces;
use symbol::AdsSymbolInfo;

impl<'a> Named<'a> for AdsSymbolInfo<'a> {
    ghost places = { symbol_places };

    ghost name_of = { λ r. r.name.now };

    fn places() -> NamePlaces
        ensures { result ≡ symbol_places }
    {
        NamePlaces {
            length: AdsSymbolInfo::NAME_LENGTH_AT,
            name: AdsSymbolInfo::MIN_LENGTH,
        }
    }

    ghost told = { symbol_told };

    ghost shortest = { symbol_shortest };
}

impl<'a> Named<'a> for AdsFieldInfo<'a> {
    ghost places = { field_places };

    ghost name_of = { λ r. r.name.now };

    fn places() -> NamePlaces
        ensures { result ≡ field_places }
    {
        NamePlaces {
            length: AdsFieldInfo::NAME_LENGTH_AT,
            name: AdsFieldInfo::MIN_LENGTH,
        }
    }

    ghost told = { field_told };

    ghost shortest = { field_shortest };
}

impl<'a> Named<'a> for AdsDataTypeInfo<'a> {
    ghost places = { field_places };

    ghost name_of = { λ r. r.field.name.now };

    fn places() -> NamePlaces
        ensures { result ≡ field_places }
    {
        AdsFieldInfo::places()
    }

    ghost told = { type_told };

    ghost shortest = { field_shortest };
}
