// Theorems only: see specs/, where Listed, Endings and Demands are the statements, Totals and FleetDemands those on the
// report over a fleet, and PriceWords, PriceDemands and CalendarDemands those on price terms and dates.

#![tactic(auto)]
